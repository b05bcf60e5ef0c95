// The checksum of the text that CRC catalogues give one for.
use crate::crc32;

#[test]
fn a_known_text_has_its_checksum(rt: HostRuntime) {
    assert_eq!(rt; crc32(b"123456789"), 0xcbf4_3926);
}
