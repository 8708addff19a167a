use std::alloc::{AllocError, Global};

/// Each answer that differs from the one before it, behind its number.
#[derive(Drop)]
pub struct Differing {
    text: String,
    last: String,
}

impl Differing {
    /// No answer yet.
    pub fn new(alloc: Global) -> Differing {
        Differing {
            text: String::new(alloc),
            last: String::new(alloc),
        }
    }

    /// Takes the answer of that number.
    pub fn add(&mut self, number: u64, answer: String) -> Result<(), AllocError> {
        if answer.as_str() == self.last.as_str() {
            return Ok(());
        }
        self.text.push_str(if self.last.as_str().is_empty() {
            ""
        } else {
            ", "
        })?;
        self.text.push_str(itoa::Buffer::new().format(number))?;
        self.text.push_str(" ")?;
        self.text.push_str(answer.as_str())?;
        self.last = answer;
        Ok(())
    }

    /// What was told.
    pub fn told(self) -> String {
        self.text
    }
}
