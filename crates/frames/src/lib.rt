// Keeping the frame of a function apart from its caller's.
#![tactic(auto)]

ghost use Rattle.std.specs.Prelude.{◌≡◌, ◌/◌, length};

// The length of the numbers divided by 2^62, so 0: no slice of 32-bit numbers is so long. A compiler cannot tell, so a function that calls itself if
// this is above 0 keeps that call, and those with large arrays are not merged into it (docs/DECISIONS.md, "Frames of their own").
pub fn apart(numbers: &[u32]) -> usize
    ensures { result ≡ length numbers.now / 4611686018427387904 }
{
    numbers.len() / 4611686018427387904
}
