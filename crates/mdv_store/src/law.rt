ghost use Rattle.mdv_store.specs.Meaning.{NumbersTell, SeatsTell, SharesTell};

/// What the definitions of a boot's number, of its seats and of a list's share mean.
pub fn seats_tell()
    ensures numbers { NumbersTell }
    ensures seats { SeatsTell }
    ensures shares { SharesTell }
{}
