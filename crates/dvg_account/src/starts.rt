//! At which words the shapes of certificates begin.

use dvg_cert::Cert;
use dvg_words::ADDRESS_END;
use std::alloc::{AllocError, Global};

/// The word addresses at which the shapes of some certificates begin.
#[derive(Drop)]
pub struct ShapeStarts {
    /// By word address, whether a shape begins there.
    begins: Vec<bool>,
}

impl ShapeStarts {
    /// Those of no certificate so far.
    pub fn new(alloc: Global) -> Result<ShapeStarts, AllocError> {
        let mut begins = Vec::new(alloc);
        for _ in 0..ADDRESS_END {
            begins.push(false)?;
        }
        Ok(ShapeStarts { begins })
    }

    /// Adds where the shapes of a certificate begin.
    pub fn add(&mut self, cert: &Cert) {
        for entry in cert.entries() {
            if let Some(begins) = self.begins.get_mut(usize::from(entry.addr)) {
                *begins = true;
            }
        }
    }

    /// Whether a shape begins at a word address.
    pub fn has(&self, at: u16) -> bool {
        self.begins.get(usize::from(at)) == Some(&true)
    }
}
