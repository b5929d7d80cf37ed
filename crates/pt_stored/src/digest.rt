ghost use Rattle.std.specs.Prelude.{◌≡◌, ◌↔◌, IfOk, IsTrue};
ghost use Rattle.sha2.specs.Sha256.{sha256};
ghost use Rattle.pt_stored.specs.Digest.{digest_text, file_name};

use pt_choice::{NoMemory, Octets};
use sha2::{Digest, Sha256};
use std::alloc::Global;

/// The lower-case hexadecimal text of the SHA-256 digest of these bytes.
pub fn digest_text(bytes: &[u8]) -> [u8; 64]
    ensures { result ≡ digest_text bytes.now }
{
    let digest: [u8; 32] = Sha256::digest(bytes);
    let mut text = [0; 64];
    let _written = hex::encode_to_slice(digest.as_slice(), &mut text);
    text
}

/// The name of the file of this value under this key.
pub fn file_name(alloc: Global, key: &[u8], value: &[u8]) -> Result<Octets, NoMemory>
    ensures { IfOk result (λ name. name ≡ file_name (digest_text key.now) value.now) }
{
    let mut name = Vec::from_slice(alloc, digest_text(key).as_slice())?;
    name.push(b'-')?;
    name.extend_from_slice(digest_text(value).as_slice())?;
    Ok(Octets::from(name))
}

/// Whether these have one digest.
pub fn are_alike(one: &[u8], other: &[u8]) -> bool
    ensures { IsTrue result ↔ (sha256 one.now ≡ sha256 other.now) }
{
    let first: [u8; 32] = Sha256::digest(one);
    let second: [u8; 32] = Sha256::digest(other);
    first == second
}
