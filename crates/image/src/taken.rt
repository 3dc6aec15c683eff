// The image of a state, and the state of an image.
ghost use Rattle.std.specs.Prelude.{◌≡◌, true, length};
ghost use Rattle.image.specs.Taken.{image_of, state_of, in_range};

use chip::model::Model;

// The state that 32 bytes read as.
pub fn state_of(bytes: &[u8]) -> Model
    requires { length bytes.now ≡ 32 }
    ensures { result ≡ state_of bytes.now }
{
    let image = <&[u8; 32]>::try_from(bytes).unwrap();
    Model::from(crate::layout::fields_in(image))
}

// The image of a state that passes 1 and 2.
pub fn put_image(bytes: &mut [u8], model: Model)
    requires { (length bytes.old ≡ 32) × (in_range model ≡ true) }
    ensures { bytes.new ≡ image_of model }
{
    crate::layout::put_fields(bytes, image_fields::state::fields_of(model));
}
