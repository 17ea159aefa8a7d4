// "An image is 1 to 65,536 whole blocks."
ghost use Rattle.std.specs.Prelude.{◌≡◌};
ghost use Rattle.paper.specs.Image.{check_image};
ghost use Rattle.record.specs.Images.{said_blocks};

use crate::refusal::Refusal;

// 65,536 blocks of 512 bytes
pub const MAX_BYTES: usize = 33_554_432;

// The number of blocks of an image, or BadImage.
#[tactic(auto, using(crate::proofs::Checks::image_refused, crate::proofs::Checks::long))]
pub fn check_image(img: &[u8]) -> Result<usize, Refusal>
    ensures { said_blocks result ≡ check_image img.now }
{
    if img.len() == 0 {
        return Err(Refusal::BadImage);
    }
    if img.len() % 512 != 0 {
        return Err(Refusal::BadImage);
    }
    if img.len() > MAX_BYTES {
        return Err(Refusal::BadImage);
    }
    Ok(img.len() / 512)
}
