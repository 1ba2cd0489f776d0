// From an image and its sites to the bytes of an image file.

ghost use Rattle.std.specs.Prelude.{◌≤◌, length, IfOk};
ghost use Rattle.rv_image_file.specs.ImageText.{ImageText};

use crate::numbers::put_number;
use crate::parts::{put_sites, put_words};
use base::{Bytes, NoMemory, PlaceList};
use rv_machine::Image;
use std::alloc::Global;

/// The one text of the image and the sites in version 2, for at most 100,000 sites.
pub fn write_image(alloc: Global, image: &Image, sites: &PlaceList) -> Result<Bytes, NoMemory>
    requires { length sites.now ≤ 100000 }
    ensures { IfOk result (λ bytes. ImageText bytes 2 image.now sites.now) }
{
    let mut text = Bytes::from_slice(alloc, b"ISLI")?;
    put_number(&mut text, 2)?;
    put_number(&mut text, image.entry)?;
    put_number(&mut text, image.words())?;
    put_words(&mut text, image.words.as_slice())?;
    put_number(&mut text, sites.len() as u32)?;
    put_sites(&mut text, sites.as_slice())?;
    Ok(text)
}
