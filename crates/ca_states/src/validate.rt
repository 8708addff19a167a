ghost use Rattle.std.specs.Prelude.{◌≡◌, length, true, false, IfOk, IfErr, OnOk, OnErr};
ghost use Rattle.ca_value.specs.Seq.{list};
ghost use Rattle.ca_states.specs.Code.{code_view};
ghost use Rattle.ca_states.specs.Valid.{is_valid};
ghost use Rattle.ca_states.specs.Views.{texts_view};
ghost use Rattle.ca_states.specs.ValidCode.{valid_code};

use crate::code::Code;
use crate::notes::Notes;
use crate::range::Texts;
use crate::valid_code::ValidCode;

/// The code as valid code, exactly where the five rules hold; else the code comes back. It takes no memory:
/// what is known of slots is noted in the code's marks. Each instruction is looked at once, and at each exit
/// the entry slots of its targets.
pub fn validate(code: Code) -> Result<ValidCode, Code>
    ensures valid { OnOk result (is_valid (code_view code) ≡ true) }
    ensures same { IfOk result (λ v. valid_code v ≡ code_view code) }
    ensures invalid { OnErr result (is_valid (code_view code) ≡ false) }
    ensures back { IfErr result (λ c. code_view c ≡ code_view code) }
{
    let Code {
        blocks,
        main,
        identity,
        bodies,
        functions,
        marks,
    } = code;
    let width = marks.len();
    let texts = Texts {
        blocks,
        main,
        identity,
        bodies,
        functions,
        width,
    };
    let mut notes = Notes::new(marks);
    let valid = texts.is_valid(&mut notes);
    let code = texts.into_code(notes);
    if valid {
        Ok(ValidCode { code })
    } else {
        Err(code)
    }
}

impl Texts {
    // The code of these texts, with the marks.
    fn into_code(self, notes: Notes) -> Code
        requires { length (list notes.marks) ≡ self.width }
        ensures { code_view result ≡ texts_view self }
    {
        let Texts {
            blocks,
            main,
            identity,
            bodies,
            functions,
            width: _,
        } = self;
        let Notes { marks, block: _ } = notes;
        Code {
            blocks,
            main,
            identity,
            bodies,
            functions,
            marks,
        }
    }
}

impl ValidCode {
    /// The code, which meets the rules.
    pub fn code(&self) -> &Code
        ensures same { code_view result.now ≡ valid_code self.now }
        ensures valid { is_valid (valid_code self.now) ≡ true }
    {
        &self.code
    }
}
