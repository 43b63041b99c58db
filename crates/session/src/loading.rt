// The image of a call: read from its file, and lent to the script. Two matches, since one takes the image and the other lends it.
ghost use Rattle.std.specs.Prelude.{◌≡◌, IfOk, IfErr, Ok, Err};
ghost use Rattle.script.specs.declared.call.Call.TheVariants.{Load};
ghost use Rattle.session.specs.Image.{ForImage, Maps};

use script::Call;

// The same call with what `make` makes of its image, or the error of that.
pub(crate) fn try_map_image<I, J, E, F: FnOnce(I) -> Result<J, E>>(
    call: Call<I>,
    make: F,
) -> Result<Call<J>, E>
    requires { ForImage call (F.pre make) }
    ensures made { IfOk result (λ mapped. Maps (λ image made. F.post make image (Ok made)) call mapped) }
    ensures failed { IfErr result (λ error. (image : I) × (call ≡ Load image) × F.post make image (Err error)) }
{
    Ok(match call {
        Call::Load(image) => Call::Load(make(image)?),
        Call::Lines(word) => Call::Lines(word),
        Call::Look(address) => Call::Look(address),
        Call::Show(index) => Call::Show(index),
        Call::Step => Call::Step,
        Call::Run(budget) => Call::Run(budget),
    })
}

// The same call with its image lent.
pub(crate) fn lend(call: &Call<Vec<u8>>) -> Call<&[u8]>
    ensures { Maps (λ image lent. lent.now ≡ image.items) call.now result }
{
    match call {
        Call::Load(image) => Call::Load(image),
        Call::Lines(word) => Call::Lines(*word),
        Call::Look(address) => Call::Look(*address),
        Call::Show(index) => Call::Show(*index),
        Call::Step => Call::Step,
        Call::Run(budget) => Call::Run(*budget),
    }
}
