use crate::files::{Files, WorldFault};
use erd_canon::{FileName, Log, ReadFrom};
use std::fs;

/// Opens files in any `std::fs::Files`, such as the `HostRuntime`. It logs what it opens and closes.
#[derive(Drop)]
pub struct OpenIn<'a, R: fs::Files> {
    files: &'a R,
    opened: Log<FileName, Result<ReadFrom<R::File>, WorldFault>>,
    beside: Log<FileName, Result<ReadFrom<R::File>, WorldFault>>,
    closed: Log<FileName, ReadFrom<R::File>>,
}

impl<'a, R: fs::Files> OpenIn<'a, R> {
    /// Wraps the files.
    pub fn of(files: &'a R) -> OpenIn<'a, R> {
        OpenIn {
            files,
            opened: Log::new(),
            beside: Log::new(),
            closed: Log::new(),
        }
    }
}

impl<R: fs::Files> Files for OpenIn<'_, R> {
    type File = ReadFrom<R::File>;

    ghost opened = { λ s. s.opened.items };

    ghost beside = { λ s. s.beside.items };

    ghost closed = { λ s. s.closed.items };

    fn open(&mut self, name: &FileName) -> Result<ReadFrom<R::File>, WorldFault> {
        let given = match fs::open(self.files, name.as_str()) {
            Ok(file) => Ok(ReadFrom::of(file)),
            Err(error) => Err(WorldFault::from(error)),
        };
        self.opened = self.opened.and(name, &given);
        given
    }

    fn open_beside(
        &mut self,
        name: &FileName,
        other: &Result<ReadFrom<R::File>, WorldFault>,
    ) -> Result<ReadFrom<R::File>, WorldFault> {
        self.beside = self.beside.and(name, other);
        self.open(name)
    }

    fn close(&mut self, name: &FileName, file: ReadFrom<R::File>) {
        self.closed = self.closed.and(name, &file);
    }
}
