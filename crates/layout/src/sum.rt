// The sum that an image ends with.
ghost use Rattle.std.specs.Prelude.{◌≡◌, ◌≤◌, length, take, sum};

use super::fields::IMAGE;

// A function of its own: over a part of an array the bound of `sum` gets no proof, and here the length bounds it.
fn total(bytes: &[u8]) -> u16
    requires { length bytes.now ≤ 257 }
    ensures { result ≡ sum bytes.now }
{
    bytes.iter().map(|byte| u16::from(*byte)).sum()
}

// The sum that an image is to end with: that of all bytes before it.
pub fn body_sum(image: &[u8]) -> u16
    requires { length image.now ≡ IMAGE }
    ensures { result ≡ sum (take 114 image.now) }
{
    total(&image[..114])
}
