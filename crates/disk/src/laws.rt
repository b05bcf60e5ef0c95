// What holds of the places, stated where a caller can rest on it.
ghost use Rattle.disk.specs.Geometry.{index_of};
ghost use Rattle.disk.specs.Order.{PlaceOrder};

// The 683 blocks are numbered by track, then by sector, and each number has its block.
#[tactic(auto, using(crate::proofs::Places::place_order))]
pub fn place_order_stands()
    ensures { PlaceOrder index_of }
{}
