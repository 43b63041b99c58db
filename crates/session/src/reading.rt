// The lines of a script.
ghost use Rattle.std.specs.Prelude.{IfSome, IsUtf8};
ghost use Rattle.session.specs.Image.{ForImage};

use script::Call;

// The call of a line, its image by the name of a file; none if the line is no call. By its beginnings, one after the other: looking for the space first takes longer.
pub(crate) fn read_call(line: &str) -> Option<Call<&str>>
    ensures text { IfSome result (λ call. ForImage call (λ name. IsUtf8 name.now)) }
{
    if line == "step" {
        return Some(Call::Step);
    }
    if let Some(name) = line.strip_prefix("load ") {
        return Some(Call::Load(name));
    }
    if let Some(word) = line.strip_prefix("lines ") {
        return Some(Call::Lines(u32::from_str_radix(word, 16).ok()?));
    }
    if let Some(address) = line.strip_prefix("look ") {
        return Some(Call::Look(u32::from_str_radix(address, 16).ok()?));
    }
    if let Some(index) = line.strip_prefix("show ") {
        return Some(Call::Show(index.parse().ok()?));
    }
    let budget = line.strip_prefix("run ")?;
    Some(Call::Run(budget.parse().ok()?))
}
