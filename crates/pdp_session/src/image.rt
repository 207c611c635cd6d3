ghost use Rattle.std.specs.Prelude.{◌≡◌};
ghost use Rattle.pdp_script.specs.Refusal.{for_memory, question_answer, result_map};
ghost use Rattle.pdp_session.specs.Image.{image_read};

use byteorder::{ByteOrder, LittleEndian};
use pdp_replay::Fault;
use std::alloc::Global;

/// The words of an image of core or of a drive, in the order of its bytes: each word is two bytes,
/// the low one first [P]. The word 012700 octal is the bytes c0 and 15, hexadecimal.
///
/// # Errors
///
/// [`Fault::BadImage`] if the number of bytes is odd; else [`Fault::NoMemory`] if there is no
/// memory for the words. How many words an image may have is for the engine to say.
#[tactic(auto, unfolding(crate::specs::Image::image_read))]
pub fn read_image(alloc: Global, bytes: &[u8]) -> Result<Vec<u16>, Fault>
    ensures { result_map (λ words. words.items) result
        ≡ question_answer (image_read bytes.now) (for_memory result) }
{
    if bytes.len() % 2 != 0 {
        return Err(Fault::BadImage);
    }
    let mut words = vec![in alloc; 0; bytes.len() / 2]?;
    LittleEndian::read_u16_into(bytes, &mut words);
    Ok(words)
}
