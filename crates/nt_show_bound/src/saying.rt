// A text that is made piece by piece, and asked at its end whether there was memory for it.
use nt_value::Text;
use std::alloc::{AllocError, Global};

/// What is said so far, and the first want of memory. After that nothing more is said.
#[derive(Drop)]
pub(crate) struct Saying {
    text: Text,
    refused: Option<AllocError>,
}

impl Saying {
    pub(crate) fn new(alloc: Global) -> Saying {
        Saying {
            text: Text::new(Vec::new(alloc)),
            refused: None,
        }
    }

    fn keep(&mut self, said: Result<(), AllocError>) {
        if let Err(refused) = said {
            self.refused = Some(refused);
        }
    }

    /// Says these bytes.
    pub(crate) fn put(&mut self, bytes: &[u8]) {
        if self.refused.is_none() {
            let said = self.text.push_bytes(bytes);
            self.keep(said);
        }
    }

    /// Says a number in base 10.
    pub(crate) fn number(&mut self, number: u64) {
        if self.refused.is_none() {
            let said = self.text.push_number(number);
            self.keep(said);
        }
    }

    /// All that was said.
    pub(crate) fn whole(self) -> Result<Text, AllocError> {
        match self.refused {
            None => Ok(self.text),
            Some(refused) => Err(refused),
        }
    }
}
