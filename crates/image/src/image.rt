// An image file as a source and a device of blocks, its kind found from its contents.
ghost use Rattle.std.specs.Prelude.{◌≡◌, IfOk, vec_items};
ghost use Rattle.image.specs.Kinds.{is_capture};
ghost use Rattle.std.specs.Result.{result_map_both};
ghost use Rattle.disk.specs.Geometry.{Place as Position};
ghost use Rattle.disk.specs.Opening.{opened};
ghost use Rattle.sector.specs.Source.{loaded};
ghost use Rattle.image.specs.Images.{contents_of, answers_as, disk_of, checked_as, opened_as, Gives, handed_back, kept_as};
ghost use Rattle.image.specs.declared.image.Image.TheVariants.{Blocks, Capture};
ghost use Rattle.d64.specs.Blocks.{whole_block};
ghost use Rattle.decoder.specs.Wholes.{decoded_whole};

use aligner::aligner::Aligner;
use d64::image::D64;
use decoder::decoder::Decoder;
use disk::cause::*;
use disk::file::*;
use disk::place::*;
use disk::refusal::*;
use g64::image::G64;
use sector::device::*;
use sector::source::*;
use track::medium::*;
use track::source::*;

// Blocks in place order, or a capture of track bits, read through the aligner.
// The kinds are these two and no caller adds one, so each method matches; whoever opens an image could not be handed a `dyn` value.
#[derive(Drop)]
pub enum Image {
    Blocks(D64),
    Capture(Decoder<Aligner<G64>>),
}

// Whether a file begins as captures do; g64's check asks for two bytes more.
pub fn is_capture(file: &[u8]) -> bool
    ensures { result ≡ is_capture file.now }
{
    file.starts_with(b"GCR-1541")
}

// The file of an image, where its bytes are taken for an image of its own kind: a capture, or not, as `is_capture` answers.
fn hand_back<F: ImageFile>(image: F, capture: bool) -> Result<Vec<u8>, Refusal>
    ensures { result ≡ kept_as capture F.checked (F.bytes image) }
{
    let file = image.into_bytes();
    if is_capture(file.as_slice()) != capture {
        return Err(Refusal::by_image(Cause::BadImage));
    }
    F::check(file.as_slice())?;
    Ok(file)
}

impl Image {
    pub fn open(file: Vec<u8>, protected: bool) -> Result<Image, Refusal>
        ensures gives { opened (checked_as file.items) (Gives file.items protected) result }
        ensures blocks { opened_as file.items result }
    {
        if is_capture(file.as_slice()) {
            let capture = G64::open(file, protected)?;
            Ok(Image::Capture(Decoder::new(Aligner::new(capture))))
        } else {
            let blocks = D64::open(file, protected)?;
            Ok(Image::Blocks(blocks))
        }
    }

    // Hands the file back; opened again it gives the same blocks. It is refused where its bytes would be taken for another kind of image, or for none.
    pub fn into_bytes(self) -> Result<Vec<u8>, Refusal>
        ensures value { result_map_both vec_items (λ e. e) result ≡ handed_back self }
        ensures again { IfOk result (λ v. (p : Position) → loaded (disk_of v.items) p ≡ loaded (contents_of self) p) }
    {
        match self {
            Image::Blocks(blocks) => hand_back(blocks, false),
            Image::Capture(capture) => hand_back(capture.into_source().into_source(), true),
        }
    }
}

impl SectorSource for Image {
    ghost contents = { contents_of };

    ghost whole = { elim [
      | Blocks d ↦ λ p. whole_block d.image.items d.small p
      | Capture c ↦ λ p. decoded_whole _ p
    ] };

    fn read(&self, place: Place, block: &mut [u8; 256]) -> Result<(), Refusal> {
        match self {
            Image::Blocks(blocks) => blocks.read(place, block),
            Image::Capture(capture) => capture.read(place, block),
        }
    }
}

impl SectorDevice for Image {
    ghost answers = { answers_as };

    fn ask(&self, place: Place) -> Result<(), Refusal> {
        match self {
            Image::Blocks(blocks) => blocks.ask(place),
            Image::Capture(capture) => capture.ask(place),
        }
    }

    fn write(&mut self, place: Place, block: &[u8; 256]) -> Result<(), Refusal> {
        match self {
            Image::Blocks(blocks) => blocks.write(place, block),
            Image::Capture(capture) => capture.write(place, block),
        }
    }
}
