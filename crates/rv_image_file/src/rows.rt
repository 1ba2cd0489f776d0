// The five tests of bytes, a row each, and the first that finds a fault.

ghost use Rattle.std.specs.Prelude.{◌≡◌, ◌+◌, ◌^◌, ◌<◌, ◌≤◌, ◌↔◌, length, take, IsTrue, MatchOption};
ghost use Rattle.rv_image_file.specs.ImageText.{magic};
ghost use Rattle.rv_image_file.specs.BadText.{version_in, words_end as words_end_of, sites_end as sites_end_of, text_end as text_end_of, HasBadVersion, LacksSites, LacksWords, IsShort, HasManySites, IsLong, HasBadEntry, BadText, HasNoFault};

use crate::faults::BadImage;
use crate::numbers::number_at;

const MOST_WORDS: u32 = 16_777_216;

const MOST_SITES: u32 = 100_000;

// The first reason for which the bytes are no image file.
pub(crate) fn fault_of(bytes: &[u8]) -> Option<BadImage>
    ensures { MatchOption result (HasNoFault bytes.now) (λ reason. BadText bytes.now reason) }
{
    if !has_magic(bytes) {
        Some(BadImage::Magic)
    } else if has_bad_version(bytes) {
        Some(BadImage::Version)
    } else if is_short(bytes) {
        Some(BadImage::Short)
    } else if is_long(bytes) {
        Some(BadImage::Long)
    } else if has_bad_entry(bytes) {
        Some(BadImage::Entry)
    } else {
        None
    }
}

// The first four bytes are `ISLI`.
fn has_magic(bytes: &[u8]) -> bool
    ensures { IsTrue result ↔ (take 4 bytes.now ≡ magic) }
{
    bytes.len() >= 4 && bytes[0] == b'I' && bytes[1] == b'S' && bytes[2] == b'L' && bytes[3] == b'I'
}

// Bytes 4 to 7 are missing, or neither 1 nor 2.
fn has_bad_version(bytes: &[u8]) -> bool
    ensures { IsTrue result ↔ HasBadVersion bytes.now }
{
    if bytes.len() < 8 {
        return true;
    }
    let version = number_at(bytes, 4);
    version != 1 && version != 2
}

// There are fewer bytes than the words need, and in version 2 the sites.
fn is_short(bytes: &[u8]) -> bool
    ensures { IsTrue result ↔ IsShort bytes.now }
{
    bytes.len() < 16 || number_at(bytes, 12) <= MOST_WORDS && lacks_words(bytes)
}

fn lacks_words(bytes: &[u8]) -> bool
    requires { 16 ≤ length bytes.now }
    ensures { IsTrue result ↔ LacksWords bytes.now }
{
    bytes.len() < words_end(bytes) || number_at(bytes, 4) == 2 && lacks_sites(bytes)
}

fn lacks_sites(bytes: &[u8]) -> bool
    requires { 16 ≤ length bytes.now }
    ensures { IsTrue result ↔ LacksSites bytes.now }
{
    let end = words_end(bytes);
    if bytes.len() < end + 4 {
        return true;
    }
    number_at(bytes, end) <= MOST_SITES && bytes.len() < sites_end(bytes)
}

// There are too many words or sites, or more bytes.
fn is_long(bytes: &[u8]) -> bool
    requires { ¬ IsShort bytes.now }
    ensures { IsTrue result ↔ IsLong bytes.now }
{
    number_at(bytes, 12) > MOST_WORDS || has_many_sites(bytes) || text_end(bytes) < bytes.len()
}

// In version 2 there are too many sites.
fn has_many_sites(bytes: &[u8]) -> bool
    requires header { 16 ≤ length bytes.now }
    requires sites { version_in bytes.now ≡ 2 → words_end_of bytes.now + 4 ≤ length bytes.now }
    ensures { IsTrue result ↔ HasManySites bytes.now }
{
    number_at(bytes, 4) == 2 && number_at(bytes, words_end(bytes)) > MOST_SITES
}

// The entry is not a multiple of 4, or not in the words.
fn has_bad_entry(bytes: &[u8]) -> bool
    requires { 16 ≤ length bytes.now }
    ensures { IsTrue result ↔ HasBadEntry bytes.now }
{
    let entry = number_at(bytes, 8);
    entry % 4 != 0 || u64::from(number_at(bytes, 12)) * 4 <= u64::from(entry)
}

// Where the words end.
pub(crate) fn words_end(bytes: &[u8]) -> usize
    requires { 16 ≤ length bytes.now }
    ensures exact { result ≡ words_end_of bytes.now }
    ensures bounded { result < 2 ^ 35 }
{
    16 + 4 * number_at(bytes, 12) as usize
}

// Where the sites end.
fn sites_end(bytes: &[u8]) -> usize
    requires header { 16 ≤ length bytes.now }
    requires sites { words_end_of bytes.now + 4 ≤ length bytes.now }
    ensures { result ≡ sites_end_of bytes.now }
{
    let end = words_end(bytes);
    end + 4 + 8 * number_at(bytes, end) as usize
}

// Where the text ends.
fn text_end(bytes: &[u8]) -> usize
    requires header { 16 ≤ length bytes.now }
    requires sites { version_in bytes.now ≡ 2 → words_end_of bytes.now + 4 ≤ length bytes.now }
    ensures { result ≡ text_end_of bytes.now }
{
    if number_at(bytes, 4) == 2 {
        sites_end(bytes)
    } else {
        words_end(bytes)
    }
}
