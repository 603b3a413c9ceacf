ghost use Rattle.mdv_status.specs.Telling.{ValuesAreLines, ValuesAreOneReply, ValuesAreTold, EntriesAreOneReply, PrintsAreOneReply, RefusalsAreOneReply};

/// The reply to a read is one line for each block, which begins with a digit, and the line `ok`, and bytes
/// behind it change none of them.
pub fn values_are_lines()
    ensures { ValuesAreLines }
{}

/// Among the bytes that are told a reply to a read is one reply with all its lines, and only once its last
/// byte is told.
pub fn values_are_one_reply()
    ensures { ValuesAreOneReply }
{}

/// So is the reply to a block of entries.
pub fn entries_are_one_reply()
    ensures { EntriesAreOneReply }
{}

/// So is the reply to a print, where none of its lines is `ok` or begins with `refused E`.
pub fn prints_are_one_reply()
    ensures { PrintsAreOneReply }
{}

/// Two lists of blocks of one length whose replies are the same are the same.
pub fn values_are_told()
    ensures { ValuesAreTold }
{}

/// Among the bytes that are told a line that begins with `refused E` is one reply, and only once its newline is
/// told.
pub fn refusals_are_one_reply()
    ensures { RefusalsAreOneReply }
{}
