// The files of the system and its outputs, of which no contract says what they hold.
ghost use Rattle.std.specs.Prelude.{◌≡◌, None};
ghost use Rattle.std.specs.Option.{option_map};
ghost use Rattle.std.specs.String.{string_bytes};

use crate::faults::count_fault;
use crate::{Failed, Input, Sink};
use std::fs;
use std::io::{Read, Write, writer};
use std::rt::Files;

/// The files of the system by their paths. It tells nothing of what they hold, and each error of the
/// system, want of memory too, is a fault.
#[derive(Drop)]
pub struct FileInput<'a, R: Files> {
    host: &'a R,
    file: Option<R::File>,
    name: Option<String>,
    got: u64,
    failed: bool,
    faults: u64,
}

impl<'a, R: Files> FileInput<'a, R> {
    /// No file is open.
    pub fn new(host: &'a R) -> FileInput<'a, R>
        ensures faults { ⟦<FileInput<'a, R> as Input>⟧.faults result ≡ 0 }
        ensures told { ⟦<FileInput<'a, R> as Input>⟧.told result ≡ None }
        ensures name { ⟦<FileInput<'a, R> as Input>⟧.name result ≡ None }
    {
        FileInput {
            host,
            file: None,
            name: None,
            got: 0,
            failed: false,
            faults: 0,
        }
    }
}

impl<'a, R: Files> Input for FileInput<'a, R> {
    ghost faults = { λ s. s.faults };

    ghost got = { λ s. s.got };

    ghost told = { λ _. None };

    ghost left = { λ _. None };

    ghost name = { λ s. option_map string_bytes s.name };

    ghost failed = { λ s. s.failed };

    fn begin(&mut self, file: String) -> Result<(), Failed> {
        self.file = fs::open(self.host, file.as_str()).ok();
        self.name = Some(file);
        self.got = 0;
        self.failed = self.file.is_none();
        if self.failed {
            count_fault(&mut self.faults);
            return Err(Failed);
        }
        Ok(())
    }

    fn read(&mut self, buf: &mut [u8]) -> Result<usize, Failed> {
        let answer = match &mut self.file {
            Some(file) => file.read(buf).ok(),
            None => None,
        };
        self.failed = answer.is_none();
        match answer {
            Some(count) => {
                self.got += count as u64;
                Ok(count)
            }
            None => {
                count_fault(&mut self.faults);
                Err(Failed)
            }
        }
    }
}

/// The standard output of the system, or its standard error. It tells nothing of what it took, and
/// each error of the system is a fault.
#[derive(Drop)]
pub struct StdSink<'a, R: Print> {
    host: &'a R,
    faults: u64,
}

impl<'a, R: Print> StdSink<'a, R> {
    /// Nothing is written.
    pub fn new(host: &'a R) -> StdSink<'a, R>
        ensures faults { ⟦<StdSink<'a, R> as Sink>⟧.faults result ≡ 0 }
        ensures taken { ⟦<StdSink<'a, R> as Sink>⟧.taken result ≡ None }
    {
        StdSink { host, faults: 0 }
    }
}

impl<'a, R: Print> Sink for StdSink<'a, R> {
    ghost faults = { λ s. s.faults };

    ghost taken = { λ _. None };

    fn write(&mut self, piece: &[u8]) -> Result<usize, Failed> {
        let answer = writer(self.host).write(piece);
        match answer {
            Ok(count) if count > 0 || piece.is_empty() => Ok(count),
            _ => {
                count_fault(&mut self.faults);
                Err(Failed)
            }
        }
    }
}
