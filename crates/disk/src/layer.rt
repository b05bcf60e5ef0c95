// The layer at which a fault is found, and its number.
ghost use Rattle.std.specs.Prelude.{◌≡◌};
ghost use Rattle.disk.specs.Layers.{layer_number};

#[derive(Clone, Copy, Debug, PartialEq, Eq)]
pub enum Layer {
    Image,
    Track,
    Sector,
    Volume,
    Caller,
}

impl From<Layer> for u8 {
    ghost from_gives = { λ layer number. number ≡ layer_number layer };

    fn from(layer: Layer) -> u8 {
        match layer {
            Layer::Image => 1,
            Layer::Track => 2,
            Layer::Sector => 3,
            Layer::Volume => 4,
            Layer::Caller => 5,
        }
    }
}
