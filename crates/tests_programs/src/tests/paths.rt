//! Rows of `dagcar at`. The answers and their texts come from a separate program in Python, which
//! walks over decoded blocks.

use crate::tests::found::{Row, gives};
use std::test::Fail;

/// A file of a root, of three blocks that its links lead to, of a raw block, and of bytes that do
/// not match their CID.
pub const FILE: &[u8] =
    b"\x3a\xa2\x65\x72\x6f\x6f\x74\x73\x81\xd8\x2a\x58\x25\x00\x01\x71\x12\x20\xec\x31\x39\x0b\
    \x86\xc4\x20\x7a\x72\x57\x7b\x15\xa3\xe8\xfc\x57\x15\xda\x4f\xcc\x3c\x66\x0c\xc8\x6e\xd2\
    \x1d\x10\x2a\xe6\x34\x90\x67\x76\x65\x72\x73\x69\x6f\x6e\x01\x89\x02\x01\x71\x12\x20\xec\
    \x31\x39\x0b\x86\xc4\x20\x7a\x72\x57\x7b\x15\xa3\xe8\xfc\x57\x15\xda\x4f\xcc\x3c\x66\x0c\
    \xc8\x6e\xd2\x1d\x10\x2a\xe6\x34\x90\xa5\x61\x61\x82\xd8\x2a\x58\x25\x00\x01\x71\x12\x20\
    \x00\xf5\x02\x9e\xcb\x58\x10\x5a\x66\x97\x01\x18\x34\x7e\xde\x24\xbc\xdd\xf4\x04\xc2\x28\
    \x99\x16\xed\x98\x28\x57\x60\x41\x45\x56\x05\x63\x72\x61\x77\xd8\x2a\x58\x25\x00\x01\x55\
    \x12\x20\xd7\x43\x9b\xee\x24\x77\x3b\xcb\xfa\x2d\x0a\x97\x94\x7e\xe3\x62\x27\xb1\x0d\x10\
    \x22\xb1\xa5\x58\x47\xe9\x28\x96\x5b\xb6\xbf\xde\x63\x77\x61\x79\xd8\x2a\x58\x25\x00\x01\
    \x71\x12\x20\x3a\x2b\x7b\xcd\x72\x6f\xdd\x8e\x9a\x90\x97\xa3\x85\xfc\x28\xd3\x8a\x97\xd2\
    \x89\xf6\x60\xc6\x3d\x56\xb2\xf1\x52\x0a\x5c\x86\xf2\x64\x67\x6f\x6e\x65\xd8\x2a\x58\x25\
    \x00\x01\x71\x12\x20\x61\xf8\xef\xee\xe0\xc3\xf0\x81\x7f\x69\x8f\x72\xd5\x25\x4d\x43\xb2\
    \x3c\x01\x2d\x23\x0a\x3e\x6e\xdd\xe5\x6e\xc6\x40\x88\x31\xbb\x65\x6f\x74\x68\x65\x72\xd8\
    \x2a\x58\x25\x00\x01\x71\x12\x20\xd9\x29\x8a\x10\xd1\xb0\x73\x58\x37\xdc\x4b\xd8\x5d\xac\
    \x64\x1b\x0f\x3c\xef\x27\xa4\x7e\x5d\x53\xa5\x4f\x2f\x3f\x5b\x2f\xcf\xfa\x65\x01\x71\x12\
    \x20\x00\xf5\x02\x9e\xcb\x58\x10\x5a\x66\x97\x01\x18\x34\x7e\xde\x24\xbc\xdd\xf4\x04\xc2\
    \x28\x99\x16\xed\x98\x28\x57\x60\x41\x45\x56\xa3\x61\x62\xd8\x2a\x58\x25\x00\x01\x71\x12\
    \x20\x98\xc0\x45\xc0\xa4\x62\x0c\x07\x68\x88\xf7\x02\x50\x80\xed\xfe\x57\x87\x31\x66\xbc\
    \xa9\x1a\x07\xe7\x6a\x2f\xe9\x5a\xc1\x37\x25\x61\x63\x61\x78\x62\x69\x64\xd8\x2a\x4b\x00\
    \x01\x71\x00\x06\xa1\x61\x78\x82\x01\x02\x2c\x01\x71\x12\x20\x98\xc0\x45\xc0\xa4\x62\x0c\
    \x07\x68\x88\xf7\x02\x50\x80\xed\xfe\x57\x87\x31\x66\xbc\xa9\x1a\x07\xe7\x6a\x2f\xe9\x5a\
    \xc1\x37\x25\x82\x18\x2a\x64\x6c\x65\x61\x66\x4d\x01\x71\x12\x20\x3a\x2b\x7b\xcd\x72\x6f\
    \xdd\x8e\x9a\x90\x97\xa3\x85\xfc\x28\xd3\x8a\x97\xd2\x89\xf6\x60\xc6\x3d\x56\xb2\xf1\x52\
    \x0a\x5c\x86\xf2\xd8\x2a\x58\x25\x00\x01\x71\x12\x20\x00\xf5\x02\x9e\xcb\x58\x10\x5a\x66\
    \x97\x01\x18\x34\x7e\xde\x24\xbc\xdd\xf4\x04\xc2\x28\x99\x16\xed\x98\x28\x57\x60\x41\x45\
    \x56\x27\x01\x55\x12\x20\xd7\x43\x9b\xee\x24\x77\x3b\xcb\xfa\x2d\x0a\x97\x94\x7e\xe3\x62\
    \x27\xb1\x0d\x10\x22\xb1\xa5\x58\x47\xe9\x28\x96\x5b\xb6\xbf\xde\x72\x61\x77\x25\x01\x71\
    \x12\x20\xd9\x29\x8a\x10\xd1\xb0\x73\x58\x37\xdc\x4b\xd8\x5d\xac\x64\x1b\x0f\x3c\xef\x27\
    \xa4\x7e\x5d\x53\xa5\x4f\x2f\x3f\x5b\x2f\xcf\xfa\x01";

pub const ROWS: &[Row] = &[
    (
        "at",
        "bafyreihmge4qxbweeb5hev33cwr6r7cxcxne7tb4mygmq3wsduicvzrusa",
        0,
        b"{\"a\":[{\"/\":\"bafyreiaa6ubj5s2ycbngnfybda2h5xrexto7ibgcfcmrn3myfblwaqkfky\"},5],\"gone\":{\"/\":\"bafyreidb7dx65ygd6cax62mpolksktkdwi6acljdbi7g5xpfn3debcbrxm\"},\"other\":{\"/\":\"bafyreigzfgfbbunqonmdpxcl3bo2yza3b46o6j5epzovhjkpf47vwl6p7i\"},\"raw\":{\"/\":\"bafkreigxion64jdxhpf7uliks6kh5y3ce6yq2ebcwgsvqr7jfclfxnv73y\"},\"way\":{\"/\":\"bafyreib2fn5424tp3whjveexuoc7ykgtrkl5fcpwmddd2vvs6fjauxeg6i\"}}\n",
        b"",
    ),
    (
        "at",
        "bafyreihmge4qxbweeb5hev33cwr6r7cxcxne7tb4mygmq3wsduicvzrusa/a",
        0,
        b"[{\"/\":\"bafyreiaa6ubj5s2ycbngnfybda2h5xrexto7ibgcfcmrn3myfblwaqkfky\"},5]\n",
        b"",
    ),
    (
        "at",
        "bafyreihmge4qxbweeb5hev33cwr6r7cxcxne7tb4mygmq3wsduicvzrusa/a/1",
        0,
        b"5\n",
        b"",
    ),
    (
        "at",
        "bafyreihmge4qxbweeb5hev33cwr6r7cxcxne7tb4mygmq3wsduicvzrusa/a/0",
        0,
        b"{\"/\":\"bafyreiaa6ubj5s2ycbngnfybda2h5xrexto7ibgcfcmrn3myfblwaqkfky\"}\n",
        b"",
    ),
    (
        "at",
        "bafyreihmge4qxbweeb5hev33cwr6r7cxcxne7tb4mygmq3wsduicvzrusa/a/0/c",
        0,
        b"\"x\"\n",
        b"",
    ),
    (
        "at",
        "bafyreihmge4qxbweeb5hev33cwr6r7cxcxne7tb4mygmq3wsduicvzrusa/a/0/b",
        0,
        b"{\"/\":\"bafyreieyybc4bjdcbqdwrchxajiib3p6k6dtczv4venapz3kf7uvvqjxeu\"}\n",
        b"",
    ),
    (
        "at",
        "bafyreihmge4qxbweeb5hev33cwr6r7cxcxne7tb4mygmq3wsduicvzrusa/a/0/b/0",
        0,
        b"42\n",
        b"",
    ),
    (
        "at",
        "bafyreihmge4qxbweeb5hev33cwr6r7cxcxne7tb4mygmq3wsduicvzrusa/a/0/b/1",
        0,
        b"\"leaf\"\n",
        b"",
    ),
    (
        "at",
        "bafyreihmge4qxbweeb5hev33cwr6r7cxcxne7tb4mygmq3wsduicvzrusa/a/0/b/2",
        1,
        b"",
        b"bafyreieyybc4bjdcbqdwrchxajiib3p6k6dtczv4venapz3kf7uvvqjxeu has nothing at 2\n",
    ),
    (
        "at",
        "bafyreihmge4qxbweeb5hev33cwr6r7cxcxne7tb4mygmq3wsduicvzrusa/a/0/b/00/x",
        1,
        b"",
        b"bafyreieyybc4bjdcbqdwrchxajiib3p6k6dtczv4venapz3kf7uvvqjxeu has nothing at 00/x\n",
    ),
    (
        "at",
        "bafyreihmge4qxbweeb5hev33cwr6r7cxcxne7tb4mygmq3wsduicvzrusa//a//0//b//1//",
        0,
        b"\"leaf\"\n",
        b"",
    ),
    (
        "at",
        "bafyreihmge4qxbweeb5hev33cwr6r7cxcxne7tb4mygmq3wsduicvzrusa/way",
        0,
        b"{\"/\":\"bafyreib2fn5424tp3whjveexuoc7ykgtrkl5fcpwmddd2vvs6fjauxeg6i\"}\n",
        b"",
    ),
    (
        "at",
        "bafyreihmge4qxbweeb5hev33cwr6r7cxcxne7tb4mygmq3wsduicvzrusa/way/c",
        0,
        b"\"x\"\n",
        b"",
    ),
    (
        "at",
        "bafyreihmge4qxbweeb5hev33cwr6r7cxcxne7tb4mygmq3wsduicvzrusa/way/b/1",
        0,
        b"\"leaf\"\n",
        b"",
    ),
    (
        "at",
        "bafyreihmge4qxbweeb5hev33cwr6r7cxcxne7tb4mygmq3wsduicvzrusa/way/id/x/1",
        0,
        b"2\n",
        b"",
    ),
    (
        "at",
        "bafyreihmge4qxbweeb5hev33cwr6r7cxcxne7tb4mygmq3wsduicvzrusa/a/0/id/x",
        0,
        b"[1,2]\n",
        b"",
    ),
    (
        "at",
        "bafyreihmge4qxbweeb5hev33cwr6r7cxcxne7tb4mygmq3wsduicvzrusa/a/0/id/y",
        1,
        b"",
        b"bafyqabvbmf4ieaic has nothing at y\n",
    ),
    (
        "at",
        "bafyreihmge4qxbweeb5hev33cwr6r7cxcxne7tb4mygmq3wsduicvzrusa/gone",
        0,
        b"{\"/\":\"bafyreidb7dx65ygd6cax62mpolksktkdwi6acljdbi7g5xpfn3debcbrxm\"}\n",
        b"",
    ),
    (
        "at",
        "bafyreihmge4qxbweeb5hev33cwr6r7cxcxne7tb4mygmq3wsduicvzrusa/gone/a",
        1,
        b"",
        b"missing bafyreidb7dx65ygd6cax62mpolksktkdwi6acljdbi7g5xpfn3debcbrxm dag-cbor\n",
    ),
    (
        "at",
        "bafyreihmge4qxbweeb5hev33cwr6r7cxcxne7tb4mygmq3wsduicvzrusa/other",
        0,
        b"{\"/\":\"bafyreigzfgfbbunqonmdpxcl3bo2yza3b46o6j5epzovhjkpf47vwl6p7i\"}\n",
        b"",
    ),
    (
        "at",
        "bafyreihmge4qxbweeb5hev33cwr6r7cxcxne7tb4mygmq3wsduicvzrusa/other/0",
        1,
        b"",
        b"bafyreigzfgfbbunqonmdpxcl3bo2yza3b46o6j5epzovhjkpf47vwl6p7i other bytes\n",
    ),
    (
        "at",
        "bafyreihmge4qxbweeb5hev33cwr6r7cxcxne7tb4mygmq3wsduicvzrusa/raw",
        0,
        b"{\"/\":\"bafkreigxion64jdxhpf7uliks6kh5y3ce6yq2ebcwgsvqr7jfclfxnv73y\"}\n",
        b"",
    ),
    (
        "at",
        "bafyreihmge4qxbweeb5hev33cwr6r7cxcxne7tb4mygmq3wsduicvzrusa/raw/0",
        1,
        b"",
        b"bafkreigxion64jdxhpf7uliks6kh5y3ce6yq2ebcwgsvqr7jfclfxnv73y not read\n",
    ),
    (
        "at",
        "bafyreihmge4qxbweeb5hev33cwr6r7cxcxne7tb4mygmq3wsduicvzrusa/zz/0",
        1,
        b"",
        b"bafyreihmge4qxbweeb5hev33cwr6r7cxcxne7tb4mygmq3wsduicvzrusa has nothing at zz/0\n",
    ),
    (
        "at",
        "bafyreihmge4qxbweeb5hev33cwr6r7cxcxne7tb4mygmq3wsduicvzrusa/a/2",
        1,
        b"",
        b"bafyreihmge4qxbweeb5hev33cwr6r7cxcxne7tb4mygmq3wsduicvzrusa has nothing at 2\n",
    ),
    (
        "at",
        "bafyreihmge4qxbweeb5hev33cwr6r7cxcxne7tb4mygmq3wsduicvzrusa/a/1/0",
        1,
        b"",
        b"bafyreihmge4qxbweeb5hev33cwr6r7cxcxne7tb4mygmq3wsduicvzrusa has nothing at 0\n",
    ),
    ("at", "/a", 2, b"", b"no CID: UnknownBase\n"),
    ("at", "a/0", 2, b"", b"no CID: UnknownBase\n"),
    (
        "at",
        "bafyreihmge4qxbweeb5hev33cwr6r7cxcxne7tb4mygmq3wsduicvzrus/a",
        2,
        b"",
        b"no CID: InvalidLength\n",
    ),
    ("at", "", 2, b"", b"no CID: UnknownBase\n"),
];

#[test]
fn paths_lead_over_the_blocks_of_a_file(rt: HostRuntime) -> Result<(), Fail> {
    for row in ROWS {
        gives(rt.alloc(), FILE, row)?;
    }
    Ok(())
}
