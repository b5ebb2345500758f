//! The lock of a file, which the system keeps for one open of it. It is taken or refused at once;
//! nobody waits.
use std::fs::File;
use std::io;

/// A file whose lock can be taken.
pub trait Lockable {
    /// Takes the lock of the whole file for this open of it alone, and waits for nobody. It holds
    /// until the file is closed, also by the end of the process. It is an error where another open
    /// of the file has the lock, or where the file system has none.
    fn take_lock(&self) -> io::Result<()>;
}

impl Lockable for File {
    /// The lock of `flock`, which all who take it keep and others may pass by.
    fn take_lock(&self) -> io::Result<()> {
        self.try_lock()?;
        Ok(())
    }
}
