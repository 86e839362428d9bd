//! Digests of bodies.
ghost use Rattle.std.specs.Prelude.{◌≡◌};
ghost use Rattle.md5.specs.Md5.{md5 as md5_of};
ghost use Rattle.sha2.specs.Sha256.{sha256 as sha256_of};

use md5::{Digest as Md5Digest, Md5};
use sha2::{Digest as Sha2Digest, Sha256};

/// The MD5 of a body (RFC 1321), which SQS returns in `MD5OfMessageBody`.
pub fn body_md5(body: &[u8]) -> [u8; 16]
    ensures { result ≡ md5_of body.now }
{
    let mut hasher = <Md5 as Md5Digest>::new();
    Md5Digest::update(&mut hasher, body);
    Md5Digest::finalize(hasher)
}

/// The SHA-256 of a body (FIPS 180-4), by which content-based deduplication compares bodies.
pub fn body_sha256(body: &[u8]) -> [u8; 32]
    ensures { result ≡ sha256_of body.now }
{
    let mut hasher = <Sha256 as Sha2Digest>::new();
    Sha2Digest::update(&mut hasher, body);
    Sha2Digest::finalize(hasher)
}
