// The parts of a text that are lists: words and sites, both ways.

ghost use Rattle.std.specs.Prelude.{◌≡◌, ◌%◌, ◌++◌, length, All, IfOk, OnOk};
ghost use Rattle.rv_machine.specs.Memory.{bytes_of};
ghost use Rattle.rv_image_file.specs.ImageText.{site_numbers, IsNumber, IsSite};

use crate::numbers::{number_at, put_number};
use base::{Bytes, NoMemory, Place, PlaceList, WordList};
use std::alloc::Global;

// The words of these bytes.
pub(crate) fn words_of(alloc: Global, bytes: &[u8]) -> Result<WordList, NoMemory>
    requires { length bytes.now % 4 ≡ 0 }
    ensures spelled { IfOk result (λ words. bytes.now ≡ bytes_of words) }
    ensures fit { IfOk result (λ words. All IsNumber words) }
{
    let mut words = WordList::new(alloc);
    for at in 0..bytes.len() / 4 {
        words.push(number_at(bytes, 4 * at))?;
    }
    Ok(words)
}

// The sites of these bytes.
pub(crate) fn sites_of(alloc: Global, bytes: &[u8]) -> Result<PlaceList, NoMemory>
    requires { length bytes.now % 8 ≡ 0 }
    ensures spelled { IfOk result (λ sites. bytes.now ≡ bytes_of (site_numbers sites)) }
    ensures fit { IfOk result (λ sites. All IsSite sites) }
{
    let mut sites = PlaceList::new(alloc);
    for at in 0..bytes.len() / 8 {
        let line = number_at(bytes, 8 * at);
        let column = number_at(bytes, 8 * at + 4);
        sites.push(Place { line, column })?;
    }
    Ok(sites)
}

// Appends the bytes of words.
pub(crate) fn put_words(out: &mut Bytes, words: &[u32]) -> Result<(), NoMemory>
    ensures spelled { OnOk result (out.new ≡ out.old ++ bytes_of words.now) }
    ensures fit { OnOk result (All IsNumber words.now) }
{
    for word in words {
        put_number(out, *word)?;
    }
    Ok(())
}

// Appends the bytes of sites.
pub(crate) fn put_sites(out: &mut Bytes, sites: &[Place]) -> Result<(), NoMemory>
    ensures spelled { OnOk result (out.new ≡ out.old ++ bytes_of (site_numbers sites.now)) }
    ensures fit { OnOk result (All IsSite sites.now) }
{
    for site in sites {
        put_number(out, site.line)?;
        put_number(out, site.column)?;
    }
    Ok(())
}
