//! Which files are logs, and which line is the first that no log has.
use cw_logs::judge;

// Logs, and files that are none, each with the number of its fault; 0 stands for a log.
static FILES: [(&str, usize); 38] = [
    ("", 0),
    ("text 0\nend\n", 0),
    ("text 0\nend", 0),
    ("text 0\nP6 0\nP148 16777215\nend\ntext 0\nend\n", 0),
    (
        "text 4\ns tex_like\nc attr_head attr\ns dots\ni alignas_like colcol\nend\n",
        0,
    ),
    ("text 3\ns hash_like\ns mdefine_like\ns paren\nend\n", 0),
    (
        "text 4\nb exp i\nc case_like\nc dead n case\ni exp a _b2 $\nend\n",
        0,
    ),
    ("text 1\ns exp\nP6 0\nend\n", 0),
    (
        "text 6\nb exp i\ns binop\nb exp i\ns ubinop\ns exp\ns semi\nP6 0\nP6 0\nP8 0\nend\n",
        0,
    ),
    (
        "text 6\nb exp i\ns binop\nb exp i\ns ubinop\ns exp\ns semi\nP6 0\nP6 0\nP8 0\n",
        11,
    ),
    ("text 0", 2),
    ("text 0\n", 2),
    ("text 1\n", 2),
    ("text 01\n", 1),
    ("text \n", 1),
    ("text +1\n", 1),
    ("text 16777215\n", 2),
    ("text 16777216\n", 1),
    ("text 1\ns exp \nend\n", 2),
    ("text 1\nb stmt x\nend\n", 2),
    ("text 1\nb exp x y\nend\n", 2),
    ("text 1\ni exp\nend\n", 2),
    ("text 1\ns exp x\nend\n", 2),
    ("text 1\nb exp 1x\nend\n", 2),
    ("text 1\ns end\nend\n", 2),
    ("text 1\nP6 0\nend\n", 2),
    ("text 0\nP149 0\nend\n", 2),
    ("text 0\nP0 0\nend\n", 2),
    ("text 0\nP06 0\nend\n", 2),
    ("text 0\nP6 16777216\nend\n", 2),
    ("text 0\nP6 0 \nend\n", 2),
    ("text 0\nP6\nend\n", 2),
    ("text 0\n\nend\n", 2),
    ("text 0\ns exp\nend\n", 2),
    ("text 0\nP6 0\nend\nend\n", 4),
    ("text 0\nend\nx", 3),
    ("text 0\nend\n\n", 3),
    ("end\n", 1),
];

/// The number of a file's fault, or 0.
fn fault_of(file: &[u8]) -> usize {
    match judge(file) {
        Ok(()) => 0,
        Err(fault) => fault.line,
    }
}

#[test]
fn faults_are_found(rt: HostRuntime) {
    for (file, line) in FILES {
        assert_eq!(rt; fault_of(file.as_bytes()), line);
    }
}
