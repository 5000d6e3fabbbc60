//! After which byte it is decided whether there is a head.

use http_requests::{Progress, Spot, progress_of};
use std::alloc::{AllocError, Global};
use std::fmt;

/// The decision after this many bytes of a head. Both are printed.
#[derive(Clone, Copy)]
pub(crate) struct Told {
    bytes: usize,
    progress: Progress,
}

impl fmt::Display for Told {
    fn fmt<W: fmt::Write>(&self, f: &mut fmt::Formatter<W>) -> fmt::Result {
        let word = match self.progress {
            Progress::Whole => "whole",
            Progress::Waits => "waits",
            Progress::Hopeless => "hopeless",
        };
        write!(f, "{} {word}", self.bytes)
    }
}

/// The decision of a `Spot`: after the first byte at which it doesn't wait, or after all bytes.
pub(crate) fn by_places(alloc: Global, head: &[u8]) -> Result<Told, AllocError> {
    let mut came = Vec::new(alloc);
    let mut spot = Spot::start();
    for byte in head {
        came.push(*byte)?;
        spot = spot.next(*byte);
        match spot.progress(&came) {
            Progress::Waits => {}
            progress => {
                return Ok(Told {
                    bytes: came.len(),
                    progress,
                });
            }
        }
    }
    Ok(Told {
        bytes: head.len(),
        progress: Progress::Waits,
    })
}

/// The same for parsing all bytes so far after each byte.
pub(crate) fn by_parsing(head: &[u8]) -> Told {
    for place in 0..head.len() {
        let bytes = place + 1;
        match progress_of(&head[..bytes]) {
            Progress::Waits => {}
            progress => return Told { bytes, progress },
        }
    }
    Told {
        bytes: head.len(),
        progress: Progress::Waits,
    }
}
