/// What `metad --version` answers.
pub const VERSION: &str = "metad 0.1.0\n";

/// What `metad --help` answers.
pub const HELP: &str = "\
usage: metad HOST < SCRIPT
       metad --help | --version

Runs the volume manager of one host over drives in image files. It reads drives.tab
in the working folder:

    host H
    drive cCtTdD BLOCKS H FILE
    slice cCtTdDsN START BLOCKS db
    slice cCtTdDsN START BLOCKS

HOST is one of the hosts H, and its own drives are those whose lines have its name, as many as
there are. FILE is an image of BLOCKS * 512 bytes, or a block device of that length; make an
image, say, with truncate -s 8388608 disk0.img for 16384 blocks. On the slices of the host's own
drives that are marked db the replicas of its state database may lie, from block 16 of each slice
on: one takes 8192 blocks, or those that -l gives. A slice marked db that shares a block with
another such one, or has fewer than 32 blocks, takes none. Other slices are for volumes, and one
that shares a block with a slice marked db takes none. The table may have other hosts too, drives
with the word shared for H, and lines mediator H BLOCKS FILE: a run opens none of those files. So
runs of different hosts may go on at the same time.

An own image is locked while the program runs, and synced when it is opened. One that can't be
opened for reading and writing, has another length, is in use by another run or is the file of
an own drive before it is a lost drive: each call on it fails, and those on others don't.

Once a write or a sync on an image failed, no later call of that run reaches it, and the file
drives.failed beside drives.tab remembers it: until the system starts anew, what the system
has of it in memory may differ from the disk, so it is a lost drive. bin/metad drops what the
system has in memory, takes the image out of drives.failed, and starts this program.

The host boots: it takes the newest table that it finds, if more than half of the places which
that lists are readable, and none where no replica shows a table. Then SCRIPT is read, on
standard input, with a command on each line:

    metadb -a -f c0t0d0s7    makes a state database, of a replica on each slice that is named; the
                             first ones need the -f; -c COUNT, 1 to 50, puts so many on each slice,
                             -l BLOCKS, 16 to 8192, makes them shorter than 8192 blocks
    metadb -a c0t1d0s7       adds replicas to the open database, with -c and -l as above; metadb -a
                             mddb01 those of the entry mddb01 in the last block of lines between
                             tab and end
    metadb -d c0t1d0s7       takes the replicas on each slice away; with -f all of them, and with
                             these the database
    metainit d0 1 1 c0t0d0s0 makes the volume d0 of all blocks of a slice
    metainit d1 1 2 c0t0d0s1 c0t1d0s1 -i 64b
                             makes a stripe of two slices, 64 blocks of each in turn, or 32 without
                             the -i; 2 1 SLICE 1 SLICE makes two stripes, one behind the other
    metattach d1 c0t0d0s2 c0t1d0s2
                             puts a stripe of these slices more behind the blocks of d1, with
                             the interlace of its last one where no -i is given
    metaclear d0 d1          takes volumes away, all that are named or none; -a takes all there are;
                             what their slices hold stays there
    write d0 5 ab            writes block 5 of d0: bytes in hexadecimal, and zeros behind
    fill d0 5 100 ab         writes 100 blocks of d0, from block 5 on, each byte of them the same; at
                             most 1024 at a time
    read d0 5 1              tells 1 block of d0, from block 5 on; at most 1024 at a time
    metastat -p              tells all volumes as lines of an md.tab, or those named behind it
    boot                     boots the host anew, as at the start

Each line is answered on standard output by a line ok, or refused with a number and a
name, as refused E7 SliceInUse. A read tells a line for each block before its ok: the number,
and the bytes up to the last that isn't zero, or - for a block of zeros. A metastat -p tells
a line for each volume before its ok.

Exit status: 0 Done, 1 SomeRefused, 2 Usage, 3 NoQuorum, 4 Panic, 5 ReadFault, 6 WriteFault,
7 NoMemory, 8 TwoDatabases, 9 ScriptTooLong, 10 NumbersSpent. From 2 on standard error tells the name,
behind Usage what doesn't fit, and then, whatever the status is, a line for each drive that was
lost from the start, as c0t0d0 disk0.img: missing.
";
