ghost use Rattle.std.specs.Prelude.{◌≡◌, ◌≤◌, ◌<◌, ◌+◌, ◌||◌, ◌&&◌};
ghost use Rattle.ca_check.specs.Words.{nat_lt, List, [], length, drop, false, IfOk, IfErr, OnOk, list, nil, bind, const, empty, program_view, kernel, bindings, form_tree, CheckError, Meaning, Part, is_defining, is_taken, list_top, bound_top, one_top, def_top, defn_top, function, tops_of, written_as, kind_top, is_defining_kind, Behind, FormLeads, Stops, form_top, nothing_defined, nothing_gathered, walk, gathered, form_parts};

use crate::definitions::Definitions;
use crate::defn::{Defn, list_items, top_name, word_at_head};
use crate::walk::Walker;
use ca_forms::context::{At, Context};
use ca_forms::error::{CheckError, CheckErrorKind};
use ca_forms::functions::Functions;
use ca_forms::gathered::Bodies;
use ca_forms::operands::is_known;
use ca_forms::scope::Scope;
use ca_forms::special::Special;
use ca_reader::form::Form;
use ca_term::place::Place;
use ca_term::term::Binding;
use ca_value::seq::Seq;
use std::alloc::Global;

/// The expansion of the top-level forms so far: what they define, and the bindings of the main text.
#[derive(Drop)]
pub struct Expansion {
    pub definitions: Definitions,
    pub bindings: Seq<Binding>,
}

/// What stands at top level, by the word at its head.
#[derive(Clone, Copy)]
pub enum Kind {
    Definition,
    Function,
    Expression,
}

fn kind_of(word: Option<Special>) -> Kind
    ensures top { (parts : List Part) (m : Meaning) → list_top word parts m ≡ kind_top result parts m }
    ensures defining { is_defining word ≡ is_defining_kind result }
{
    match word {
        None => Kind::Expression,
        Some(special) => match special {
            Special::Def => Kind::Definition,
            Special::Defn => Kind::Function,
            _ => Kind::Expression,
        },
    }
}

// One `def` or `defn` too many, or too many items.
fn is_past(kind: Kind, defined: u64, items: usize) -> bool
    ensures { result ≡ ((is_defining_kind kind && nat_lt 1023 defined) || nat_lt 4096 items) }
{
    let defining = match kind {
        Kind::Definition | Kind::Function => true,
        Kind::Expression => false,
    };
    (defining && 1023 < defined) || 4096 < items
}

// Too deep for the Let of the main text.
fn is_deep(deep: bool, depth: u64) -> bool
    ensures { result ≡ (deep || nat_lt 399 depth) }
{
    deep || 399 < depth
}

impl Definitions {
    /// Nothing.
    pub fn new(alloc: Global) -> Definitions
        ensures tops { tops_of result ≡ nothing_defined }
        ensures gathered { gathered result.walker.gathered ≡ nothing_gathered }
    {
        Definitions {
            walker: Walker {
                scope: Scope::new(alloc),
                gathered: Bodies {
                    bodies: Seq::new(alloc),
                    deep: false,
                },
            },
            functions: Functions::new(alloc),
            procedures: Seq::new(alloc),
            defined: 0,
        }
    }

    // The name of a form, a builtin, a function or an earlier `def`.
    fn is_taken(&self, name: &[u8]) -> bool
        ensures { result ≡ is_taken name.now (tops_of self.now) }
    {
        is_known(&self.functions, name) || self.walker.scope.find(name).is_some()
    }
}

impl Expansion {
    /// That of no form.
    pub fn new(alloc: Global) -> Expansion
        ensures tops { tops_of result.definitions ≡ nothing_defined }
        ensures gathered { gathered result.definitions.walker.gathered ≡ nothing_gathered }
        ensures bindings { bindings (list result.bindings) ≡ empty }
    {
        Expansion {
            definitions: Definitions::new(alloc),
            bindings: Seq::new(alloc),
        }
    }

    /// Goes on with the top-level form that so many others stand before.
    pub fn form(&mut self, alloc: Global, number: u64, form: &Form) -> Result<(), CheckError>
        requires { Behind number self.old }
        ensures ok { OnOk result (FormLeads (form_top number (form_tree form.now)) self.old self.new) }
        ensures err { IfErr result (λ e. Stops e (form_top number (form_tree form.now)) self.old) }
        ensures behind { OnOk result (Behind (number + 1) self.new) }
    {
        if 4095 < number {
            return Err(CheckError::Fault(CheckErrorKind::TooMany, form.place));
        }
        let parts = list_items(form);
        let kind = kind_of(word_at_head(parts));
        if is_past(kind, self.definitions.defined, parts.len()) {
            return Err(CheckError::Fault(CheckErrorKind::TooMany, form.place));
        }
        match kind {
            Kind::Definition => self.definition(alloc, number, parts, form.place),
            Kind::Function => self.function(alloc, number, parts, form.place),
            Kind::Expression => self.bind(alloc, number, b"", 0, form, form.place),
        }
    }

    fn definition(
        &mut self,
        alloc: Global,
        number: u64,
        parts: &[Form],
        place: Place,
    ) -> Result<(), CheckError>
        requires behind { Behind number self.old }
        requires first { number ≤ 4095 }
        ensures ok { OnOk result (FormLeads (one_top (def_top (form_parts (drop 1 parts.now))) place) self.old self.new) }
        ensures err { IfErr result (λ e. Stops e (one_top (def_top (form_parts (drop 1 parts.now))) place) self.old) }
        ensures behind { OnOk result (Behind (number + 1) self.new) }
    {
        match parts {
            [_, name, value] => match top_name(name) {
                Some(name) => {
                    if self.definitions.is_taken(name) {
                        Err(CheckError::Fault(CheckErrorKind::Redefined, place))
                    } else {
                        self.bind(alloc, number, name, 1, value, place)
                    }
                }
                None => Err(CheckError::Fault(CheckErrorKind::BadForm, place)),
            },
            _ => Err(CheckError::Fault(CheckErrorKind::BadForm, place)),
        }
    }

    // Binds the value of a form under the name, of which there are `defined` more.
    fn bind(
        &mut self,
        alloc: Global,
        number: u64,
        name: &[u8],
        defined: u64,
        form: &Form,
        place: Place,
    ) -> Result<(), CheckError>
        requires behind { Behind number self.old }
        requires first { number ≤ 4095 }
        requires one { defined ≤ 1 }
        ensures ok { OnOk result (FormLeads (bound_top name.now (walk (form_tree form.now)) defined place) self.old self.new) }
        ensures err { IfErr result (λ e. Stops e (bound_top name.now (walk (form_tree form.now)) defined place) self.old) }
        ensures behind { OnOk result (Behind (number + 1) self.new) }
    {
        let at = At {
            target: None,
            context: Context::Main,
        };
        let size = self.definitions.walker.scope.len();
        let made = self
            .definitions
            .walker
            .form(alloc, &self.definitions.functions, at, form)?;
        if is_deep(self.definitions.walker.gathered.deep, made.depth()) {
            return Err(CheckError::Fault(CheckErrorKind::TooMany, place));
        }
        self.bindings.reserve(1)?;
        self.definitions.walker.scope.bind(alloc, name)?;
        self.bindings.push(Binding::new(size, made.into_term()));
        self.definitions.defined += defined;
        Ok(())
    }

    fn function(
        &mut self,
        alloc: Global,
        number: u64,
        parts: &[Form],
        place: Place,
    ) -> Result<(), CheckError>
        requires behind { Behind number self.old }
        requires first { number ≤ 4095 }
        ensures ok { OnOk result (FormLeads (one_top (defn_top (form_parts (drop 1 parts.now))) place) self.old self.new) }
        ensures err { IfErr result (λ e. Stops e (one_top (defn_top (form_parts (drop 1 parts.now))) place) self.old) }
        ensures behind { OnOk result (Behind (number + 1) self.new) }
    {
        match Defn::of(parts) {
            None => Err(CheckError::Fault(CheckErrorKind::BadForm, place)),
            Some(defn) => self.add(alloc, number, &defn, place),
        }
    }

    fn add(
        &mut self,
        alloc: Global,
        number: u64,
        defn: &Defn,
        place: Place,
    ) -> Result<(), CheckError>
        requires behind { Behind number self.old }
        requires first { number ≤ 4095 }
        ensures ok { OnOk result (FormLeads (one_top (function (written_as defn.now)) place) self.old self.new) }
        ensures err { IfErr result (λ e. Stops e (one_top (function (written_as defn.now)) place) self.old) }
        ensures behind { OnOk result (Behind (number + 1) self.new) }
    {
        if self.definitions.is_taken(defn.name) {
            return Err(CheckError::Fault(CheckErrorKind::Redefined, place));
        }
        if 16 < defn.parameters.len() {
            return Err(CheckError::Fault(CheckErrorKind::TooMany, place));
        }
        self.definitions.add_function(alloc, defn, place)?;
        if self.definitions.walker.gathered.deep {
            return Err(CheckError::Fault(CheckErrorKind::TooMany, place));
        }
        Ok(())
    }
}
