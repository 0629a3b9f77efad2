// The clusters that the programs accept. Their definition has R by itself, so shape_checks' test of R is not called here.
#![tactic(auto)]

ghost use Rattle.std.specs.Prelude.{◌≡◌};
ghost use Rattle.shapes.specs.Shapes.{accepted};

use cluster::Shape;

#[tactic(auto, unfolding(crate::specs::Shapes::accepted))]
pub fn is_accepted(h: Shape) -> bool
    ensures { result ≡ accepted h }
{
    1 <= h.places && h.places <= 100 && matches!(h.replicas, 1 | 3 | 5 | 7)
}
