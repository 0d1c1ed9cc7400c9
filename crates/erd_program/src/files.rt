ghost use Rattle.std.specs.Prelude.{◌≡◌, ℕ, List, [], ◌∷◌, ◌++◌, Result, IfOk, false};
ghost use Rattle.erd_program.specs.declared.files.WorldFault.{WorldFault};
ghost use Rattle.erd_program.specs.Messages.{world_status};

use erd_canon::{FileName, RunFault, Source};
use std::alloc::AllocError;
use std::io;

/// Why the outside did not give a file or the arguments.
#[derive(Clone, Copy, Debug, PartialEq, Eq)]
pub enum WorldFault {
    /// The system refused it.
    Refused,
    /// Out of memory.
    Memory,
}

impl From<AllocError> for WorldFault {
    ghost use Rattle.std.specs.Prelude.{◌≡◌};
    ghost use Rattle.erd_program.specs.declared.files.WorldFault.TheVariants.{Memory};

    ghost from_gives = { λ _ r. r ≡ Memory };

    fn from(_: AllocError) -> WorldFault {
        WorldFault::Memory
    }
}

impl From<io::Error> for WorldFault {
    ghost use Rattle.std.specs.Prelude.{◌≡◌, ◌≢◌};
    ghost use Rattle.std.specs.IoError.{error_kind};
    ghost use Rattle.std.specs.declared.io.ErrorKind.TheVariants.{OutOfMemory};
    ghost use Rattle.erd_program.specs.declared.files.WorldFault.TheVariants.{Memory, Refused};

    ghost from_gives = { λ e r. (error_kind e ≡ OutOfMemory → r ≡ Memory) × (error_kind e ≢ OutOfMemory → r ≡ Refused) };

    fn from(error: io::Error) -> WorldFault {
        match error.kind() {
            io::ErrorKind::OutOfMemory => WorldFault::Memory,
            _ => WorldFault::Refused,
        }
    }
}

impl WorldFault {
    /// Returns the exit status of the program for this fault: 3 if the system refused, 4 if out of memory.
    pub fn status(&self) -> u8
        ensures { result ≡ world_status self.now }
    {
        match self {
            WorldFault::Refused => 3,
            WorldFault::Memory => RunFault::Memory.status(),
        }
    }
}

/// Files that can be opened by their names.
pub trait Files {
    /// An open file.
    type File: Source + Drop;

    // The names that were opened, in their order, each with what opening it gave.
    ghost opened: { Self → List (List ℕ × Result Self.File WorldFault) };

    // The names that were opened beside another file, in their order, each with what opening that file gave, as it was then.
    ghost beside: { Self → List (List ℕ × Result Self.File WorldFault) };

    // The files that were closed, in their order, each with its name and as it was then.
    ghost closed: { Self → List (List ℕ × Self.File) };

    /// Opens the file with this name.
    ///
    /// # Errors
    ///
    /// - `WorldFault::Refused` if the file cannot be opened.
    /// - `WorldFault::Memory` if out of memory.
    fn open(&mut self, name: &FileName) -> Result<Self::File, WorldFault>
        ensures opened { opened self.new ≡ opened self.old ++ (name.now, result) ∷ [] }
        ensures beside { beside self.new ≡ beside self.old }
        ensures closed { closed self.new ≡ closed self.old }
        ensures works { IfOk result (λ file. Self.File.reader.has_failed file ≡ false) };

    /// Opens the file with this name beside another one, of which it keeps in mind how it is now.
    ///
    /// # Errors
    ///
    /// As `open`.
    fn open_beside(
        &mut self,
        name: &FileName,
        other: &Result<Self::File, WorldFault>,
    ) -> Result<Self::File, WorldFault>
        ensures opened { opened self.new ≡ opened self.old ++ (name.now, result) ∷ [] }
        ensures beside { beside self.new ≡ beside self.old ++ (name.now, other.now) ∷ [] }
        ensures closed { closed self.new ≡ closed self.old }
        ensures works { IfOk result (λ file. Self.File.reader.has_failed file ≡ false) };

    /// Closes the file that was opened by this name.
    fn close(&mut self, name: &FileName, file: Self::File)
        ensures closed { closed self.new ≡ closed self.old ++ (name.now, file) ∷ [] }
        ensures opened { opened self.new ≡ opened self.old }
        ensures beside { beside self.new ≡ beside self.old };
}
