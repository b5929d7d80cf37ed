ghost use Rattle.std.specs.Prelude.{◌≡◌, ◌↔◌, ◌+◌, ◌≤◌, IsOk, IfOk, OnOk, MatchOption, string_bytes, string_len, string_capacity};
ghost use Rattle.pt_real.specs.FileNames.{IsFileName, path_in};

use pt_choice::NoMemory;
use std::alloc::Global;
use std::io::{Error, ErrorKind};

// The most bytes that a name may have.
const MAX_NAME: usize = 255;

/// A name that no file of a folder may have.
#[derive(Clone, Copy, Debug)]
pub struct NoFileName;

impl From<NoFileName> for Error {
    fn from(_: NoFileName) -> Error {
        Error::from(ErrorKind::InvalidFilename)
    }
}

/// The path of a file in a folder, in a buffer that is taken once and serves one name after another.
#[derive(Drop)]
pub struct FolderPath {
    folder: String,
    text: String,
    // For a slash and the longest name.
    ghost room: { string_len folder + 256 ≤ string_capacity text },
}

/// The name as text, where it is one that a file may have.
pub fn file_name(name: &[u8]) -> Option<&str>
    ensures { MatchOption result (¬ IsFileName name.now) (λ text. (text.now ≡ name.now) × IsFileName name.now) }
{
    if name.is_empty()
        || name.len() > MAX_NAME
        || name == b".".as_slice()
        || name == b"..".as_slice()
    {
        return None;
    }
    if !name.iter().all(|byte| *byte != 0 && *byte != b'/') {
        return None;
    }
    str::from_utf8(name).ok()
}

impl FolderPath {
    /// No file of this folder yet.
    pub fn of(alloc: Global, folder: &str) -> Result<FolderPath, NoMemory>
        ensures { IfOk result (λ path. string_bytes path.folder ≡ folder.now) }
    {
        let Some(room) = folder.len().checked_add(MAX_NAME + 1) else {
            return Err(NoMemory);
        };
        let folder = String::from_str(alloc, folder)?;
        let text = String::with_capacity(alloc, room)?;
        Ok(FolderPath { folder, text })
    }

    pub fn folder(&self) -> &str
        ensures { result.now ≡ string_bytes self.now.folder }
    {
        self.folder.as_str()
    }

    /// The file of this name from here on. It takes no memory, so that it fails for no other cause than the name.
    pub fn go(&mut self, name: &[u8]) -> Result<(), NoFileName>
        ensures judged { IsOk result ↔ IsFileName name.now }
        ensures path { OnOk result (string_bytes self.new.text ≡ path_in (string_bytes self.old.folder) name.now) }
        ensures folder { self.new.folder ≡ self.old.folder }
    {
        let Some(name) = file_name(name) else {
            return Err(NoFileName);
        };
        self.text.clear();
        if self.text.push_str(self.folder.as_str()).is_ok()
            && self.text.push('/').is_ok()
            && self.text.push_str(name).is_ok()
        {
            return Ok(());
        }
        Err(NoFileName)
    }

    pub fn as_str(&self) -> &str
        ensures { result.now ≡ string_bytes self.now.text }
    {
        self.text.as_str()
    }
}
