// The system's files, standard output and standard error. Nothing is known of what they give and take.
ghost use Rattle.std.specs.Prelude.{◌≡◌, ℕ, List, None, is_some, false};
ghost use Rattle.rwsp_io.specs.Told.{Silent};

use crate::interrupted::{read_again, write_again};
use crate::{Shelf, ShelfFault, Sink, SinkFault};
use std::rt::Files;
use std::{fs, io};

/// Files of the system, named by their paths. All names are counted together. A read that a signal interrupts is made
/// again, and so is an opening.
#[derive(Drop)]
pub struct RealShelf<'a, R: Files> {
    rt: &'a R,
    file: Option<R::File>,
    faults: u64,
}

impl<'a, R: Files> RealShelf<'a, R> {
    /// A shelf with nothing chosen and no fault counted.
    pub fn new(rt: &'a R) -> RealShelf<'a, R>
        ensures chosen { ⟦<RealShelf<'a, R> as Shelf>⟧.chosen result ≡ false }
        ensures faults { (name : List ℕ) → ⟦<RealShelf<'a, R> as Shelf>⟧.faults result name ≡ 0 }
    {
        RealShelf {
            rt,
            file: None,
            faults: 0,
        }
    }
}

impl<'a, R: Files> Shelf for RealShelf<'a, R> {
    ghost held = { λ _ _. Silent };

    ghost chosen = { λ s. is_some s.file };

    ghost left = { λ _. None };

    ghost faults = { λ s _. s.faults };

    fn choose(&mut self, name: &str) -> Result<(), ShelfFault> {
        match fs::open(self.rt, name) {
            Ok(file) => {
                self.file = Some(file);
                Ok(())
            }
            Err(_) => {
                self.file = None;
                self.faults = self.faults.saturating_add(1);
                Err(ShelfFault)
            }
        }
    }

    // A folder opens, and its first read fails.
    fn take(&mut self, piece: &mut [u8]) -> Result<usize, ShelfFault> {
        let Some(file) = &mut self.file else {
            unreachable!();
        };
        if piece.is_empty() {
            return Ok(0);
        }
        match read_again(file, piece) {
            Ok(count) => Ok(count),
            Err(ShelfFault) => {
                self.faults = self.faults.saturating_add(1);
                Err(ShelfFault)
            }
        }
    }
}

/// Standard output, or standard error. A write that takes nothing is a fault; one that a signal interrupts is made
/// again.
#[derive(Drop)]
pub struct RealSink<'a, R: Print> {
    rt: &'a R,
    faults: u64,
}

impl<'a, R: Print> RealSink<'a, R> {
    /// A sink with no fault counted.
    pub fn new(rt: &'a R) -> RealSink<'a, R>
        ensures { ⟦<RealSink<'a, R> as Sink>⟧.faults result ≡ 0 }
    {
        RealSink { rt, faults: 0 }
    }
}

impl<'a, R: Print> Sink for RealSink<'a, R> {
    ghost got = { λ _. None };

    ghost faults = { λ s. s.faults };

    fn put(&mut self, piece: &[u8]) -> Result<usize, SinkFault> {
        if piece.is_empty() {
            return Ok(0);
        }
        match write_again(&mut io::writer(self.rt), piece) {
            Ok(count) if count > 0 => Ok(count),
            _ => {
                self.faults = self.faults.saturating_add(1);
                Err(SinkFault)
            }
        }
    }
}
