// The sum of pictures.
ghost use Rattle.std.specs.Prelude.{◌≡◌, ◌^◌, ◌≤◌, All, length, sum, sum_by};
ghost use Rattle.run_report.specs.declared.shot.Shot.{Shot};
ghost use Rattle.scale_pick.specs.Picture.{IsFilled};
ghost use Rattle.demo_script.specs.Sum.{pixel_sum};

use run_report::Shot;
use scale_pick::Picture;

/// The sum of the bytes of all pixels of pictures. Each picture has a byte for each pixel.
pub fn pixel_sum(shots: &[Shot]) -> u64
    requires { length shots.now ≤ 2 ^ 20 }
    ensures sum { result ≡ pixel_sum shots.now }
    ensures filled { All (λ (s : Shot). IsFilled s.picture) shots.now }
{
    let mut total = 0;
    for shot in shots {
        total += sum_of(&shot.picture);
    }
    total
}

/// The sum of the bytes of a picture's pixels.
#[tactic(auto, using(crate::proofs::SumLemmas::pixels_few))]
fn sum_of(picture: &Picture) -> u64
    ensures sum { result ≡ sum picture.now.values }
    ensures small { result ≤ 2 ^ 32 }
    ensures filled { IsFilled picture.now }
{
    let mut total = 0;
    for byte in picture.values() {
        total += *byte as u64;
    }
    total
}
