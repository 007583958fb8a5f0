// The commands that a host can send.
ghost use Rattle.std.specs.Prelude.{◌≡◌};
ghost use Rattle.mouse.specs.Commands.{command_of};

#[derive(Clone, Copy)]
pub(crate) enum Command {
    Scale1To1,
    Scale2To1,
    SetResolution,
    StatusRequest,
    SetStream,
    ReadData,
    ResetWrap,
    SetWrap,
    SetRemote,
    GetId,
    SetRate,
    Enable,
    Disable,
    SetDefaults,
    Resend,
}

impl Command {
    // The command of a byte, if one is listed. FFh, the Reset, is told apart before this.
    // An `Option`, as an error of `TryFrom` would say no more.
    pub(crate) fn of(byte: u8) -> Option<Command>
        ensures { result ≡ command_of byte }
    {
        let command = match byte {
            0xE6 => Command::Scale1To1,
            0xE7 => Command::Scale2To1,
            0xE8 => Command::SetResolution,
            0xE9 => Command::StatusRequest,
            0xEA => Command::SetStream,
            0xEB => Command::ReadData,
            0xEC => Command::ResetWrap,
            0xEE => Command::SetWrap,
            0xF0 => Command::SetRemote,
            0xF2 => Command::GetId,
            0xF3 => Command::SetRate,
            0xF4 => Command::Enable,
            0xF5 => Command::Disable,
            0xF6 => Command::SetDefaults,
            0xFE => Command::Resend,
            _ => return None,
        };
        Some(command)
    }
}
