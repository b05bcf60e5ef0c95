// A number as it is typed: a track or a sector.
ghost use Rattle.std.specs.Prelude.{◌≡◌};
ghost use Rattle.commands.specs.Numbers.{byte_number};

// The number of a text of decimal digits, up to 255.
pub fn number(text: &str) -> Option<u8>
    ensures { result ≡ byte_number text.now }
{
    // parse takes a sign too
    if text.starts_with('+') {
        return None;
    }
    text.parse().ok()
}
