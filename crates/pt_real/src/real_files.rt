ghost use Rattle.std.specs.Prelude.{◌≡◌, Ok, None, is_ok, IsSome, IsSomeAnd, IfSome, IfNone, OnOk, OnErr};
ghost use Rattle.std.specs.Io.KnownBytes.{ReadConsumes};
ghost use Rattle.pt_io.specs.Files.{Chose, Moved};
ghost use Rattle.pt_real.specs.Untold.{untold_files};

use crate::outcome::counted;
use pt_io::{Files, IoFailed};
use std::io::Read;
use std::{fs, rt};

/// The files of the machine. They tell nothing of what they hold; each error counts as a fault.
#[derive(Drop)]
pub struct RealFiles<'a, R: rt::Files> {
    rt: &'a R,
    // The chosen file, if one is.
    file: Option<R::File>,
    chosen: u64,
    faults: u64,
}

impl<'a, R: rt::Files> RealFiles<'a, R> {
    /// No file is chosen yet, and no fault is counted.
    pub fn of(rt: &'a R) -> RealFiles<'a, R>
        ensures nothing { result.file ≡ None }
        ensures none_chosen { result.chosen ≡ 0 }
        ensures no_faults { result.faults ≡ 0 }
    {
        RealFiles {
            rt,
            file: None,
            chosen: 0,
            faults: 0,
        }
    }

    /// How many calls failed.
    pub fn faults(&self) -> u64
        ensures { result ≡ self.now.faults }
    {
        self.faults
    }
}

impl<R: rt::Files> Files for RealFiles<'_, R> {
    ghost shows = { λ files. untold_files files.faults files.chosen };

    ghost tells_left = { λ files told. told };

    ghost tells_files = { λ files steady. steady };

    fn choose(&mut self, name: &str) -> Result<(), IoFailed>
        ensures chose { Chose (untold_files self.old.faults self.old.chosen) name.now (is_ok result) (untold_files self.new.faults self.new.chosen) }
        ensures file { OnOk result (IsSome self.new.file) }
        ensures no_file { OnErr result (self.new.file ≡ None) }
    {
        self.chosen = self.chosen.saturating_add(1);
        self.file = None;
        let file = counted(&mut self.faults, fs::open(self.rt, name))?;
        self.file = Some(file);
        Ok(())
    }

    fn read(&mut self, into: &mut [u8]) -> Result<usize, IoFailed>
        ensures moved { Moved (untold_files self.old.faults self.old.chosen) into.old result into.new (untold_files self.new.faults self.new.chosen) }
        // What it answers is what the machine's file gave.
        ensures gave { IfSome self.old.file (λ file. IsSomeAnd self.new.file (λ now.
            ReadConsumes (R.File.remaining file) (R.File.remaining now) result into.new)) }
        ensures no_file { IfNone self.old.file ((result ≡ Ok 0) × (self.new.file ≡ None)) }
    {
        match &mut self.file {
            Some(file) => counted(&mut self.faults, file.read(into)),
            None => Ok(0),
        }
    }
}
