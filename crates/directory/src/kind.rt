// What the type byte of a directory entry says.
ghost use Rattle.std.specs.Prelude.{◌≡◌};
ghost use Rattle.directory.specs.Kinds.{kind_of, status_of};

#[derive(Clone, Copy, Debug, PartialEq, Eq)]
pub enum FileKind {
    Seq,
    Prg,
    Usr,
}

#[derive(Clone, Copy, Debug, PartialEq, Eq)]
pub enum Status {
    Empty,
    Unclosed(FileKind),
    Closed(FileKind),
    Foreign(u8),
}

// The kind of a file by the low bits of its type byte. A function and no `From<u8>`, since other bytes stand for no kind, and no `TryFrom<u8>`, whose refusal the calls below could never see.
fn file_kind(code: u8) -> FileKind
    ensures { result ≡ kind_of code }
{
    match code {
        1 => FileKind::Seq,
        2 => FileKind::Prg,
        _ => FileKind::Usr,
    }
}

// What a type byte says.
impl From<u8> for Status {
    ghost from_gives = { λ type_byte status. status ≡ status_of type_byte };

    fn from(type_byte: u8) -> Status {
        match type_byte {
            0 => Status::Empty,
            1..=3 => Status::Unclosed(file_kind(type_byte)),
            closed if 0x81 <= closed && closed <= 0x83 => Status::Closed(file_kind(closed - 0x80)),
            foreign => Status::Foreign(foreign),
        }
    }
}
