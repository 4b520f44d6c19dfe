// Opening the files of a command line.
ghost use Rattle.std.specs.Prelude.{◌≡◌, ℕ, List, Bool, None, false, IfOk, OnErr};
ghost use Rattle.std.specs.Io.KnownBytes.{Keeps};
ghost use Rattle.std.specs.declared.option.Option.{Option};

use crate::{FromStd, Read};
use std::fs::File;
use std::io;
use std::rt::Files;

/// Opens files by their names.
pub trait Opener {
    /// An open file. It is closed when it is dropped.
    type File: Read + Drop;

    // The bytes of the file with this name, if they are known.
    ghost content: { Self → List ℕ → Option (List ℕ) } = { λ _ _. None };

    // The file with this name can be opened. It is false too if the opener does not tell.
    ghost can_open: { Self → List ℕ → Bool } = { λ _ _. false };

    /// Opens the file with this name, to be read from its first byte. The error is that of the system.
    fn open(&self, name: &str) -> io::Result<Self::File>
        ensures bytes { IfOk result (λ file. Keeps (content self.now name.now) (Self.File.remaining file)) }
        ensures failed { OnErr result (can_open self.now name.now ≡ false) };
}

/// The files of the system. Nothing is claimed about their bytes, nor about which of them can be opened.
#[derive(Drop)]
pub struct FileSystem<'a, R>(pub &'a R);

impl<R: Files> Opener for FileSystem<'_, R> {
    type File = FromStd<R::File>;

    /// Opens the file with this name, to be read from its first byte. The error is that of the system.
    fn open(&self, name: &str) -> io::Result<FromStd<R::File>> {
        Ok(FromStd(File::open(self.0, name)?))
    }
}
