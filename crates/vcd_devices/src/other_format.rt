//! What a file is that is no plain VCD, by its first bytes.

use std::io::Read;
use std::rt::Runtime;
use vcd_replace::SeenFile;

/// How many bytes are looked at.
const BEGINNING: usize = 9;

const UTF_16: &str = "is UTF-16: iconv -f UTF-16 -t UTF-8 FILE > NEW.vcd";

const FST: &str = "is an FST file: fst2vcd FILE > NEW.vcd (GTKWave)";

/// First bytes of files, what such a file is, and what makes VCD of it.
const FORMATS: [(&[u8], &str); 16] = [
    (b"\x1f\x8b", "is packed by gzip: gzip -dc FILE > NEW.vcd"),
    (b"BZh", "is packed by bzip2: bzip2 -dc FILE > NEW.vcd"),
    (b"\xfd7zXZ", "is packed by xz: xz -dc FILE > NEW.vcd"),
    (
        b"\x28\xb5\x2f\xfd",
        "is packed by zstd: zstd -dc FILE > NEW.vcd",
    ),
    (
        b"PK\x03\x04",
        "is a zip file: unzip FILE, or of sigrok: sigrok-cli -i FILE -O vcd > NEW.vcd",
    ),
    (
        b"\xef\xbb\xbf",
        "begins with a byte order mark: sed '1s/^\\xef\\xbb\\xbf//' FILE > NEW.vcd",
    ),
    (b"\xff\xfe", UTF_16),
    (b"\xfe\xff", UTF_16),
    (b"$\0", UTF_16),
    (b"\0$", UTF_16),
    (b"\0\0\0\0\0\0\0\x01\x49", FST),
    (b"\xfe\0\0\0", FST),
    (
        b"\x13\x80",
        "is an LXT2 file: lxt2vcd FILE > NEW.vcd (GTKWave)",
    ),
    (b"VZ", "is a VZT file: vzt2vcd FILE > NEW.vcd (GTKWave)"),
    (b"GHDLwave", "is a GHW file: run GHDL with --vcd=FILE"),
    (
        b"META ",
        "begins with a line of sigrok-cli's own: sed '/^META /d' FILE > NEW.vcd",
    ),
];

/// Tells what a file is that has a fault as a capture, and what makes VCD of it, if its first bytes
/// show that.
pub fn tell_other_format<R: Runtime>(rt: &R, capture: SeenFile<'_>) {
    let Ok(mut file) = capture.open(rt) else {
        return;
    };
    let mut beginning = [0; BEGINNING];
    let mut len = 0;
    // one by one, since a device may give fewer bytes than it is asked for
    for (place, byte) in beginning.iter_mut().enumerate() {
        let mut read = [0];
        if !matches!(file.read(&mut read), Ok(1)) {
            break;
        }
        *byte = read[0];
        len = place + 1;
    }
    let found = beginning.get(..len).unwrap_or(b"");
    for (first, what) in &FORMATS {
        if found.starts_with(first) {
            let _ = eprintln!(rt; "capture: the file {what}");
        }
    }
}
