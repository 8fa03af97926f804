//! Why a call on a file failed, as far as a message states it.

/// Why a call on a file failed.
#[derive(Clone, Copy)]
pub enum FileFault {
    /// There is no file of this name.
    NotFound,
    /// There is a file of this name.
    AlreadyThere,
    /// The system does not allow it.
    NotAllowed,
    /// The name is that of a directory.
    IsFolder,
    /// A component of the path is not a directory.
    NoFolder,
    /// The disk is full.
    DiskFull,
    /// A quota is used up.
    QuotaFull,
    /// The file would be too large for its file system.
    TooLarge,
    /// The name is longer than its file system allows.
    NameTooLong,
    /// The file system is read-only.
    ReadOnly,
    /// The reading end of a pipe is closed.
    ReaderGone,
    /// There was no memory.
    NoMemory,
    /// Anything else.
    Other,
}
