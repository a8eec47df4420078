//! What a put asks of the system's files, call by call.
ghost use Rattle.std.specs.Prelude.{None};

use std::fs::{self, OpenFile, OpenOptions, Permissions};
use std::io::{self, ErrorKind, Write};
use std::rt::Files;

/// What stands under a name.
#[derive(Drop)]
pub(crate) enum Standing {
    Nothing,
    File { rights: Permissions },
    Else,
}

/// Files by name, where each call may be told with its answer.
pub(crate) trait Disk {
    ghost use Rattle.std.specs.Prelude.{◌≡◌, List, Option};
    ghost use Rattle.std.specs.Result.{is_ok};
    ghost use Rattle.tc_base.specs.Disk.{Call, Looked, Tried, Made, Cut, Closed, Renamed, Removed};
    ghost use Rattle.tc_base.specs.Disk.{Asks, found_in, opened_in};

    // The calls that were made, in order, where the disk tells them.
    ghost asked: { Self → Option (List Call) };

    type File: Write + Drop;

    /// What stands under a name. A link is told as one.
    fn look(&mut self, name: &str) -> io::Result<Standing>
        ensures { Asks (asked self.old) (asked self.new) (Looked name.now (found_in result)) };

    /// Opens what stands under a name for writing, and closes it.
    fn try_write(&mut self, name: &str) -> io::Result<()>
        ensures { Asks (asked self.old) (asked self.new) (Tried name.now) };

    /// Makes a file under a name where nothing stands.
    fn make(&mut self, name: &str) -> io::Result<Self::File>
        ensures { Asks (asked self.old) (asked self.new)
            (Made name.now (opened_in Self.File.contents result)) };

    /// Cuts what stands under a name to nothing, or makes a file there.
    fn cut(&mut self, name: &str) -> io::Result<Self::File>
        ensures { Asks (asked self.old) (asked self.new)
            (Cut name.now (opened_in Self.File.contents result)) };

    /// Gives a file rights, where the file system has some. It is not told.
    fn give_rights(&self, file: &Self::File, rights: Permissions);

    fn close(&mut self, file: Self::File)
        ensures { Asks (asked self.old) (asked self.new) (Closed (Self.File.contents file)) };

    fn rename(&mut self, from: &str, to: &str) -> io::Result<()>
        ensures { Asks (asked self.old) (asked self.new) (Renamed from.now to.now (is_ok result)) };

    fn remove(&mut self, name: &str)
        ensures { Asks (asked self.old) (asked self.new) (Removed name.now) };
}

/// The files of the system. It tells nothing: that each call here is the one it is called for is trusted.
#[derive(Drop)]
pub(crate) struct System<'a, R: Files> {
    pub rt: &'a R,
}

impl<R: Files> Disk for System<'_, R> {
    ghost asked = { λ _. None };

    type File = R::File;

    fn look(&mut self, name: &str) -> io::Result<Standing> {
        match fs::symlink_metadata(self.rt, name) {
            Ok(told) if told.is_file() => Ok(Standing::File {
                rights: told.permissions(),
            }),
            Ok(_) => Ok(Standing::Else),
            Err(e) if e.kind() == ErrorKind::NotFound => Ok(Standing::Nothing),
            Err(e) => Err(e),
        }
    }

    fn try_write(&mut self, name: &str) -> io::Result<()> {
        OpenOptions::new().write(true).open(self.rt, name)?;
        Ok(())
    }

    fn make(&mut self, name: &str) -> io::Result<R::File> {
        OpenOptions::new()
            .write(true)
            .create_new(true)
            .open(self.rt, name)
    }

    fn cut(&mut self, name: &str) -> io::Result<R::File> {
        fs::create(self.rt, name)
    }

    fn give_rights(&self, file: &R::File, rights: Permissions) {
        let _ = file.set_permissions(rights);
    }

    fn close(&mut self, file: R::File) {
        drop(file);
    }

    fn rename(&mut self, from: &str, to: &str) -> io::Result<()> {
        fs::rename(self.rt, from, to)
    }

    fn remove(&mut self, name: &str) {
        let _ = fs::remove_file(self.rt, name);
    }
}
