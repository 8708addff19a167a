ghost use Rattle.std.specs.Prelude.{◌≡◌, ◌<◌, [], ◌∷◌, ◌++◌, length, OnOk, OnErr, IfSome, IfNone, None, Some, take, ◌-◌, false, slice_get};
ghost use Rattle.std.specs.Option.{option_map_or};
ghost use Rattle.ca_forms.specs.FunctionsView.{find};
ghost use Rattle.ca_forms.specs.FunctionsView.{named_function};

use ca_value::memory::OutOfMemory;
use ca_value::seq::Seq;
use indexmap::IndexMap;
use std::alloc::Global;
use std::marker::Model;

/// What a call has to know of a function.
#[derive(Drop)]
pub struct Function {
    /// How many arguments a call writes.
    pub arity: u64,
    /// The numbers of the names that each call passes besides.
    pub hidden: Seq<u64>,
    /// Whether its body has no operation, uses no `def` and calls plain functions only.
    pub plain: bool,
}

/// The functions so far, by number and by name. Their names differ.
#[derive(Drop)]
pub struct Functions {
    table: IndexMap<Vec<u8>, Function>,
}

impl Model for Functions {
    ghost use Rattle.std.specs.Prelude.{List};
    ghost use Rattle.ca_forms.specs.Meaning.{Signature};
    ghost use Rattle.ca_forms.specs.FunctionsView.{functions_of};

    ghost Value = { List Signature };

    ghost view = { λ f. functions_of (λ v. v.items) f.table.entries };
}

impl Functions {
    /// No function.
    pub fn new(alloc: Global) -> Functions
        ensures { result ≡ [] }
    {
        Functions {
            table: IndexMap::new(alloc),
        }
    }

    /// How many there are: the number of the next.
    pub fn len(&self) -> u64
        ensures { result ≡ length self.now }
    {
        self.table.len() as u64
    }

    /// The function of that name, with its number.
    pub fn find(&self, name: &[u8]) -> Option<(u64, &Function)>
        ensures some { IfSome result (λ r. find name.now self.now ≡ Some (r.0, named_function name.now r.1.now)) }
        ensures none { IfNone result (find name.now self.now ≡ None) }
    {
        match self.table.get_full(name) {
            Some((number, _, function)) => Some((number as u64, function)),
            None => None,
        }
    }

    /// The function of that number is there, and plain.
    pub fn is_plain(&self, number: u64) -> bool
        ensures { result ≡ option_map_or (λ f. f.plain) (slice_get self.now number) false }
    {
        match self.table.get_index(number as usize) {
            Some((_, function)) => function.plain,
            None => false,
        }
    }

    /// Adds a function under a new name.
    pub fn add(&mut self, alloc: Global, name: &[u8], function: Function) -> Result<(), OutOfMemory>
        requires { find name.now self.old ≡ None }
        ensures ok { OnOk result (self.new ≡ self.old ++ named_function name.now function ∷ []) }
        ensures err { OnErr result (self.new ≡ self.old) }
    {
        let key = Vec::from_slice(alloc, name)?;
        self.table.insert(key, function)?;
        Ok(())
    }

    /// Takes the last one out.
    pub fn remove_last(&mut self)
        ensures { self.new ≡ take (length self.old - 1) self.old }
    {
        self.table.pop();
    }
}
