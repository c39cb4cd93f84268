//! A shelf whose texts are files of the folder that the program runs in.
ghost use Rattle.std.specs.Prelude.{◌≡◌, None};

use gt_io::{Failed, Shelf, count_end};
use std::fs::File;
use std::io::Read;
use std::rt::Files;

/// Files by their paths, from the folder that the program runs in. It tells nothing, so that a
/// missing file is a hard fault as others are.
#[derive(Drop)]
pub struct HostShelf<'a, R> {
    rt: &'a R,
    file: Option<File>,
    faults: u64,
    asked: u64,
    ends: u64,
}

impl<'a, R: Files<File = File>> HostShelf<'a, R> {
    /// A shelf with no file open.
    pub fn new(rt: &'a R) -> Self
        ensures contents { (⟦<HostShelf<'a, R> as Shelf>⟧.stock result).contents ≡ None }
        ensures left { (⟦<HostShelf<'a, R> as Shelf>⟧.stock result).left ≡ None }
        ensures faults { (⟦<HostShelf<'a, R> as Shelf>⟧.stock result).faults ≡ 0 }
        ensures hard_faults { (⟦<HostShelf<'a, R> as Shelf>⟧.stock result).hard_faults ≡ 0 }
    {
        HostShelf {
            rt,
            file: None,
            faults: 0,
            asked: 0,
            ends: 0,
        }
    }
}

impl<'a, R: Files<File = File>> Shelf for HostShelf<'a, R> {
    ghost stock = { λ s. record {
      contents = None;
      left = None;
      faults = s.faults;
      hard_faults = s.faults;
      asked = s.asked;
      ends = s.ends;
    } };

    fn find(&mut self, name: &str) -> Result<(), Failed> {
        self.asked = self.asked.saturating_add(1);
        match File::open(self.rt, name) {
            Ok(file) => {
                self.file = Some(file);
                Ok(())
            }
            Err(_) => {
                self.faults = self.faults.saturating_add(1);
                Err(Failed)
            }
        }
    }

    fn read(&mut self, buf: &mut [u8]) -> Result<usize, Failed> {
        let Some(file) = &mut self.file else {
            self.ends = count_end(self.ends, 0);
            return Ok(0);
        };
        match file.read(buf) {
            Ok(count) => {
                self.ends = count_end(self.ends, count);
                Ok(count)
            }
            Err(_) => {
                self.faults = self.faults.saturating_add(1);
                Err(Failed)
            }
        }
    }
}
