//! The law of the samples, on a function that does nothing.
ghost use Rattle.std.specs.Prelude.{ℕ, ◌≡◌, ◌≤◌};
ghost use Rattle.std.specs.List.{All};
ghost use Rattle.im_matrix.specs.declared.Which.{Which};
ghost use Rattle.point_set.specs.Shape.{IsWellShaped};
ghost use Rattle.point_set.specs.Validity.{IsValid};
ghost use Rattle.sample_figures.specs.Samples.{IsSampleNumber, figures_of_sample, most_teeth};

use crate::samples::MOST_TEETH;

/// Each figure of each sample is well shaped and valid. Samples are numbered from 1 to `MOST_TEETH`.
pub fn law_samples_are_valid()
    ensures shaped { (n : ℕ) → IsSampleNumber n → (which : Which) → All IsWellShaped (figures_of_sample n which) }
    ensures valid { (n : ℕ) → IsSampleNumber n → (which : Which) → All IsValid (figures_of_sample n which) }
    ensures greatest { MOST_TEETH ≡ most_teeth }
{}
