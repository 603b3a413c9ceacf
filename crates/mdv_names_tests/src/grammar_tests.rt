use mdv_base::VolId;
use mdv_command::Command;
use mdv_grammar::*;
use std::alloc::Global;

fn command_kind(command: &Command) -> &'static str {
    match command {
        Command::ListReplicas { .. } => "list replicas",
        Command::AddReplicas { .. } => "add replicas",
        Command::AddListed { .. } => "add listed",
        Command::DeleteReplicas { .. } => "delete replicas",
        Command::MakeAll => "make all",
        Command::MakeNamed { .. } => "make named",
        Command::Make { .. } => "make",
        Command::Clear { .. } => "clear",
        Command::ClearAll { .. } => "clear all",
        Command::Attach { .. } => "attach",
        Command::Grow { .. } => "grow",
        Command::Detach { .. } => "detach",
        Command::Offline { .. } => "offline",
        Command::Online { .. } => "online",
        Command::Enable { .. } => "enable",
        Command::Replace { .. } => "replace",
        Command::AddSpares { .. } => "add spares",
        Command::DeleteSpares { .. } => "delete spares",
        Command::ReplaceSpare { .. } => "replace spare",
        Command::EnableSpares { .. } => "enable spares",
        Command::ListPools { .. } => "list pools",
        Command::Status { .. } => "status",
        Command::ShowSets { .. } => "show sets",
        Command::ChangeSet { .. } => "change set",
        Command::Read { .. } => "read",
        Command::Write { .. } => "write",
        Command::Fill { .. } => "fill",
        Command::Idle { .. } => "idle",
    }
}

/// What the line is.
pub(crate) fn kind(alloc: Global, text: &[u8]) -> &'static str {
    match read_line(alloc, text) {
        Ok(Line::Nothing) => "nothing",
        Ok(Line::Tab) => "tab",
        Ok(Line::End) => "end",
        Ok(Line::Boot) => "boot",
        Ok(Line::Command(command)) => command_kind(&command),
        Err(WordsFault::BadLine) => "bad",
        Err(WordsFault::Memory) => "memory",
    }
}

// What each line is.
const LINES: &[(&[u8], &str)] = &[
    (b"", "nothing"),
    (b" \t ", "nothing"),
    (b"  # metadb", "nothing"),
    (b"tab", "tab"),
    (b"\tend ", "end"),
    (b"boot", "boot"),
    (b"metadb", "list replicas"),
    (b"metadb -is blue", "list replicas"),
    (b"metadb -a c0t0d0s7", "add replicas"),
    (
        b"metadb -a -f -c 3 -l 16 /dev/dsk/c0t0d0s7 c0t1d0s7",
        "add replicas",
    ),
    (b"metadb -l8192 -fac50 c0t0d0s7", "add replicas"),
    (b"metadb -a -f mddb01", "add listed"),
    (b"metadb -d -f c0t0d0s7 c0t1d0s7", "delete replicas"),
    (b"metainit -a", "make all"),
    (b"metainit d10", "make named"),
    (b"metainit -f -s blue hsp001", "make named"),
    (b"metainit d10 1 1 c0t0d0s0", "make"),
    (b"metainit -s blue d0 -m blue/d10 d20 1", "make"),
    (b"metainit hsp001 c0t2d0s4", "make"),
    (b"metaclear d10 blue/hsp001", "bad"),
    (b"metaclear blue/d10 blue/hsp001", "clear"),
    (b"metaclear -rf d10 hsp001", "clear"),
    (b"metaclear -a -f -s blue", "clear all"),
    (b"metattach d0 d20", "attach"),
    (b"metattach -i 32b d10 c0t0d0s0 d4", "attach"),
    (b"metattach d10 c0t0d0s0 -i 0", "attach"),
    (b"metattach d1 1g", "grow"),
    (b"metattach -s blue blue/d1 1", "grow"),
    (b"metadetach -f d0 d20", "detach"),
    (b"metaoffline d0 d20", "offline"),
    (b"metaonline /dev/md/dsk/d0 d20", "online"),
    (b"metareplace -e d0 c0t0d0s0", "enable"),
    (b"metareplace d0 d3 c0t0d0s0", "replace"),
    (b"metastat", "status"),
    (b"metastat -s blue -p d10 hsp001", "status"),
    (b"read d0 18446744073709551615 1", "read"),
    (b"read blue/d0 0 1025", "read"),
    (b"write d0 5 aB", "write"),
    (b"fill d0 0 3 ff", "fill"),
    (b"idle 0", "idle"),
    // Spares and sets.
    (b"metahs -a hsp001 c0t0d0s0", "add spares"),
    (b"metahs -sblue -a all c0t0d0s0 c0t1d0s0", "add spares"),
    (b"metahs -d blue/hsp001 c0t0d0s0", "delete spares"),
    (b"metahs -r all c0t0d0s0 c0t1d0s0", "replace spare"),
    (b"metahs -e c0t0d0s0", "enable spares"),
    (b"metahs -i", "list pools"),
    (b"metahs -i hsp001 hsp002", "list pools"),
    (b"metaset", "show sets"),
    (b"metaset -s blue", "show sets"),
    (b"metaset -s blue -a -h hostA d5", "change set"),
    (b"metaset -dhs blue hostA", "change set"),
    (b"metaset -s blue -am hostA", "change set"),
    (b"metaset -s blue -d -m hostA", "change set"),
    (b"metaset -s blue -a -l 64 c1t0d0 c1t1d0", "change set"),
    (b"metaset -s blue -d -f c1t0d0", "change set"),
    (b"metaset -s blue -t", "change set"),
    (b"metaset -s blue -t -f", "change set"),
    (b"metaset -s blue -r", "change set"),
];

// No line is read.
const WRONG: &[&[u8]] = &[
    b"# \x80",
    b"boot now",
    b"tab now",
    b"end now",
    b"endless",
    b"metadb -",
    b"metadb -x",
    b"metadb -i -i",
    b"metadb -s",
    b"metadb -s 1blue",
    b"metadb -i c0t0d0s7",
    b"metadb -a",
    b"metadb -a c0t0d0s8",
    b"metadb -a c0t0d0s7 -f",
    b"metadb -a -f -f c0t0d0s7",
    b"metadb -a -d c0t0d0s7",
    b"metadb -a -c 0 c0t0d0s7",
    b"metadb -a -c 257 c0t0d0s7",
    b"metadb -a -c 1 -c 1 c0t0d0s7",
    b"metadb -a -l 8193 c0t0d0s7",
    b"metadb -a -c 1 mddb01",
    b"metadb -a mddb01 mddb02",
    b"metadb -d -c 1 c0t0d0s7",
    b"metadb -s blue -d c0t0d0s7",
    b"metadb -a -c 51 c0t0d0s7",
    b"metadb -a -l 15 c0t0d0s7",
    b"metadb -d",
    b"metadb -d d0",
    b"metainit",
    b"metainit -a d10",
    b"metainit -s blue -a",
    b"metainit d10 -f",
    b"metainit mddb01 c0t0d0s7",
    b"metainit d8192",
    b"metainit -s 1blue d10",
    b"metainit -s blue red/d10",
    b"metainit blue/d0 -m d10",
    b"metaclear",
    b"metaclear -a d10",
    b"metaclear -a -r",
    b"metaclear -a -s 1blue",
    b"metaclear all",
    b"metaclear c0t0d0s0",
    b"metattach d1",
    b"metattach d1 0",
    b"metattach -i 16b d1 100",
    b"metattach -i 16b d1 c0t0d0s0 -i 16b",
    b"metattach c0t0d0s0 d1",
    b"metattach d10 c0t0d0s8",
    b"metattach -i 16x d10 c0t0d0s0",
    b"metattach d0 hsp001",
    b"metadetach d0",
    b"metadetach d0 blue/d20",
    b"metadetach d8192 d20",
    b"metaoffline -f d0 d20",
    b"metaoffline d0 c0t0d0s0",
    b"metaonline d0 d20 d30",
    b"metareplace d0 c0t0d0s0",
    b"metareplace -e d0 c0t0d0s0 c0t1d0s0",
    b"metareplace -e d0 hsp001",
    b"metareplace -e hsp001 c0t0d0s0",
    b"metareplace d8192 c0t0d0s0 c0t1d0s0",
    b"metareplace d0 hsp001 c0t0d0s0",
    b"metareplace d0 c0t0d0s0 hsp001",
    b"metahs",
    b"metahs -a hsp001",
    b"metahs -a c0t0d0s0",
    b"metahs -a -d hsp001 c0t0d0s0",
    b"metahs -r hsp001 c0t0d0s0",
    b"metahs -r hsp001 d0 c0t0d0s0",
    b"metahs -r hsp001 c0t0d0s0 d0",
    b"metahs -d hsp001 d0",
    b"metahs -d hsp01 c0t0d0s0",
    b"metahs -e d0",
    b"metahs -e all c0t0d0s0",
    b"metahs -e hsp001 c0t0d0s0",
    b"metahs -i all",
    b"metahs -i d10",
    b"metahs hsp001",
    b"metastat -f",
    b"metastat c0t0d0s0",
    b"metastat -s 1blue",
    b"metaset blue",
    b"metaset -s 1blue",
    b"metaset -a -h hostA",
    b"metaset -s blue -h hostA",
    b"metaset -s blue -a -h",
    b"metaset -s blue -a -h 1host",
    b"metaset -s blue -a -h -m hostA",
    b"metaset -s blue -a -m 1host",
    b"metaset -s blue -a -l 15 c1t0d0",
    b"metaset -s blue -a -f c1t0d0",
    b"metaset -s blue -a c1t0d0s7",
    b"metaset -s blue -d -l 64 c1t0d0",
    b"metaset -s blue -t c1t0d0",
    b"metaset -s blue -r -f",
    b"read d0 0",
    b"read d0 0 0",
    b"read d0 00 1",
    b"read d8192 0 1",
    b"read c0t0d0s0 0 1",
    b"read d0 0 18446744073709551616",
    b"write d0 0 abc",
    b"write d0 0",
    b"write d8192 0 ab",
    b"write d0 00 ab",
    b"fill d8192 0 1 ff",
    b"fill d0 x 1 ff",
    b"fill d0 0 0 ff",
    b"fill d0 0 1 f",
    b"fill d0 0 1 ff ff",
    b"idle",
    b"idle 1k",
    b"idle 00",
];

#[test]
fn reads_each_line(rt: HostRuntime) {
    for (text, want) in LINES {
        assert!(rt; kind(rt.alloc(), text) == *want, "{text:?}");
    }
    asks_one_thing();
}

#[test]
fn refuses_wrong_parts(rt: HostRuntime) {
    for text in WRONG {
        assert!(rt; kind(rt.alloc(), text) == "bad", "{text:?}");
    }
}

// The slices, the options and whether `-f` is given, of a line that adds replicas.
fn added(alloc: Global, text: &[u8]) -> Option<(usize, Option<u8>, Option<u16>, bool)> {
    match read_line(alloc, text) {
        Ok(
            Line::Command(
                Command::AddReplicas {
                    slices,
                    options,
                    force,
                },
            ),
        ) => {
            Some((
                slices.as_slice().len(),
                options.count,
                options.blocks,
                force,
            ))
        }
        _ => None,
    }
}

// The volume, the components and the interlace of a line that attaches them.
fn attached(alloc: Global, text: &[u8]) -> Option<(VolId, usize, Option<u64>)> {
    match read_line(alloc, text) {
        Ok(
            Line::Command(
                Command::Attach {
                    volume,
                    components,
                    interlace,
                },
            ),
        ) => { Some((volume.volume, components.as_slice().len(), interlace)) }
        _ => None,
    }
}

#[test]
fn keeps_the_parts_of_a_line(rt: HostRuntime) {
    let line = b"metadb -afc2 -l 64 c0t0d0s7 c0t1d0s7";
    assert!(rt; added(rt.alloc(), line) == Some((2, Some(2), Some(64), true)));
    let line = b"metattach -s blue d10 c0t0d0s0 -i 16k";
    assert!(rt; attached(rt.alloc(), line) == Some((VolId(10), 1, Some(32))));
}
