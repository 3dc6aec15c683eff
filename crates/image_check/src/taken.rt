// Which buffers are images.
ghost use Rattle.std.specs.Prelude.{◌≡◌, eqb};
ghost use Rattle.std.specs.List.{list_all};
ghost use Rattle.image.specs.Taken.{taken};

// Whether all bytes are 0; the `zeros` of `example12` makes a memory.
fn zeros(bytes: &[u8]) -> bool
    ensures { result ≡ list_all (λ byte. eqb byte 0) bytes.now }
{
    bytes.iter().all(|byte| *byte == 0)
}

// Whether a buffer is an image: 32 bytes, of which those that no field uses are 0, and fields that are taken.
#[tactic(auto, using(crate::proofs::BusLaws::taken_tests, crate::proofs::BusLaws::no_length))]
pub fn is_taken(bytes: &[u8]) -> bool
    ensures { result ≡ taken bytes.now }
{
    match <&[u8; 32]>::try_from(bytes) {
        Ok(image) => zeros(&image[20..]) && crate::fields::takes(image::layout::fields_in(image)),
        Err(_) => false,
    }
}
