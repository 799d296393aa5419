//! A file whose bytes are digested while they are read, and which keeps why a read failed.
ghost use Rattle.std.specs.Prelude.{◌≡◌, ◌++◌, [], IfOk, IfErr, None, Some, string_bytes, take};
ghost use Rattle.std.specs.Io.{Buffered.{reader_inner}, KnownBytes.{ReadConsumes}, ReadsAtMost};
ghost use Rattle.hex.specs.Hex.{encode_lower};
ghost use Rattle.sha2.specs.Sha256.{sha256};
ghost use Rattle.ocfl_tree.specs.Place.{Text};
ghost use Rattle.ocfl_files.specs.Hearing.{HasHeard};

use sha2::{Digest, Sha256};
use std::alloc::{AllocError, Global};
use std::io::{self, BufReader, Read};

/// A reader whose bytes are digested while they are read, and which keeps why a read failed.
pub struct Heard<F: Drop> {
    file: F,
    hasher: Sha256,
    error: Option<io::Error>,
}

/// Written by hand, so that to let it go is one call wherever that happens.
impl<F: Drop> Drop for Heard<F> {
    fn drop(self) {
        let Heard {
            file: _file,
            hasher: _hasher,
            error: _error,
        } = self;
    }
}

impl<F: Drop> Heard<F> {
    /// Before the first read.
    pub fn new(file: F) -> Heard<F>
        ensures heard { HasHeard result [] }
        ensures file { result.file ≡ file }
        ensures error { result.error ≡ None }
    {
        Heard {
            file,
            hasher: Sha256::new(),
            error: None,
        }
    }

    /// Why the last read failed that did.
    pub fn error(&self) -> Option<io::Error>
        ensures { result ≡ self.now.error }
    {
        self.error
    }

    /// The SHA-256 of all that was read, in hexadecimal digits.
    pub fn into_digits(self, alloc: Global) -> Result<String, AllocError>
        ensures { IfOk result (λ digits. (text : Text) → HasHeard self text
            → string_bytes digits ≡ encode_lower (sha256 text)) }
    {
        let Heard {
            file: _file,
            hasher,
            error: _error,
        } = self;
        hex::encode(alloc, hasher.finalize())
    }
}

impl<F: Read + Drop> Read for Heard<F> {
    ghost remaining = { λ heard. F.remaining heard.file };

    fn read(&mut self, buffer: &mut [u8]) -> io::Result<usize>
        ensures bound { ReadsAtMost result buffer.new }
        ensures bytes { ReadConsumes (F.remaining self.old.file) (F.remaining self.new.file) result
            buffer.new }
        ensures heard { (text : Text) → HasHeard self.old text
            → IfOk result (λ count. HasHeard self.new (text ++ take count buffer.new)) }
        ensures failed { (text : Text) → HasHeard self.old text
            → IfErr result (λ _. HasHeard self.new text) }
        ensures error { IfErr result (λ error. self.new.error ≡ Some error) }
    {
        match self.file.read(buffer) {
            Ok(count) => {
                self.hasher.update(&buffer[..count]);
                Ok(count)
            }
            Err(error) => {
                self.error = Some(error);
                Err(error)
            }
        }
    }
}

/// A buffered reader of such a file.
pub struct HeardReader<F: Drop> {
    pub reader: BufReader<Heard<F>>,
}

/// Written by hand, so that to let it go is one call wherever that happens.
impl<F: Drop> Drop for HeardReader<F> {
    fn drop(self) {
        let HeardReader { reader: _reader } = self;
    }
}

impl<F: Read + Drop> HeardReader<F> {
    /// Before the first read.
    pub fn new(alloc: Global, file: F) -> Result<HeardReader<F>, AllocError>
        ensures heard { IfOk result (λ heard. HasHeard (reader_inner heard.reader) []) }
        ensures file { IfOk result (λ heard. (reader_inner heard.reader).file ≡ file) }
    {
        match BufReader::new(alloc, Heard::new(file)) {
            Ok(reader) => Ok(HeardReader { reader }),
            Err(_) => Err(AllocError),
        }
    }

    /// Why the last read failed that did.
    pub fn error(&self) -> Option<io::Error>
        ensures { result ≡ (reader_inner self.now.reader).error }
    {
        self.reader.get_ref().error()
    }

    /// The SHA-256 of all that was read, in hexadecimal digits.
    pub fn into_digits(self, alloc: Global) -> Result<String, AllocError>
        ensures { IfOk result (λ digits. (text : Text) → HasHeard (reader_inner self.reader) text
            → string_bytes digits ≡ encode_lower (sha256 text)) }
    {
        let HeardReader { reader } = self;
        reader.into_inner().into_digits(alloc)
    }
}
