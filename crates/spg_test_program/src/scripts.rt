use crate::program::{ends, no_fails, run_word};
use spg_app::Status;
use std::test::Fail;

/// Scripts, and the texts of their runs.
const RUNS: [(&[u8], &[u8]); 19] = [
    (b"class quad", b"journal 0\n"),
    (b"class kd\n", b"journal 0\n"),
    (
        b"class quad\ninsert 1.1 0,0\ninsert 1.1 5,5",
        b"1 0 2 added\n2 2 2 row used\njournal 2\n0 0 open insert 1.1 0,0\n1 0 put 1.1\n",
    ),
    (
        b"class quad\ninsert 1.1 3,4\ninsert 1.2 9,9\nfind where in 0,0,5,5\n",
        b"1 0 2 added\n2 2 4 added\n3 4 6 found 1 walk 2 1.1\njournal 6\n0 0 open insert 1.1 3,4\n1 0 put 1.1\n2 0 open insert 1.2 9,9\n3 0 put 1.2\n4 0 open scan where in 0,0,5,5\n5 0 close scan 1\n",
    ),
    (
        b"class kd\ninsert 1.1 5,1\nfind where eq 5,1 and right 4\n",
        b"1 0 2 added\n2 2 4 found 1 walk 1 1.1\njournal 4\n0 0 open insert 1.1 5,1\n1 0 put 1.1\n2 0 open scan where eq 5,1 and right 4\n3 0 close scan 1\n",
    ),
    (
        b"class quad\ninsert 2.1 -3,4\ninsert 1.9 -3,-2147483648\nfind where left 0 and below 5\nfind where above 4\n",
        b"1 0 2 added\n2 2 4 added\n3 4 6 found 2 walk 2 1.9 2.1\n4 6 8 found 0 walk 2\njournal 8\n0 0 open insert 2.1 -3,4\n1 0 put 2.1\n2 0 open insert 1.9 -3,-2147483648\n3 0 put 1.9\n4 0 open scan where left 0 and below 5\n5 0 close scan 2\n6 0 open scan where above 4\n7 0 close scan 0\n",
    ),
    (
        b"class radix\ninsert 1.1 \"a\\x42 and \xc3\xa9\"\nfind where starts \"aB\" and ge \"a and \"\n",
        b"1 0 2 added\n2 2 4 found 1 walk 1 1.1\njournal 4\n0 0 open insert 1.1 \"aB and \xc3\xa9\"\n1 0 put 1.1\n2 0 open scan where starts \"aB\" and ge \"a and \"\n3 0 close scan 1\n",
    ),
    (
        b"class radix\ninsert 1.1 \"\"\ninsert 1.2 \"\\x00\\xFf\\x22\\x5C\\x7f~\"\nfind where lt \"b\"\nfind where eq \"\"\n",
        b"1 0 2 added\n2 2 4 added\n3 4 6 found 2 walk 2 1.1 1.2\n4 6 8 found 1 walk 2 1.1\njournal 8\n0 0 open insert 1.1 \"\"\n1 0 put 1.1\n2 0 open insert 1.2 \"\\x00\xff\\x22\\x5c\\x7f~\"\n3 0 put 1.2\n4 0 open scan where lt \"b\"\n5 0 close scan 2\n6 0 open scan where eq \"\"\n7 0 close scan 1\n",
    ),
    (
        b"class radix\ninsert 1.1 null\nfind where le \"\" and gt \"z\"\nfind null",
        b"1 0 2 added\n2 2 4 found 0 walk 0\n3 4 6 found 1 walk 1 1.1\njournal 6\n0 0 open insert 1.1 null\n1 0 put 1.1\n2 0 open scan where le \"\" and gt \"z\"\n3 0 close scan 0\n4 0 open scan null\n5 0 close scan 1\n",
    ),
    (
        b"class kd\ninsert 1.1 0,0\ninsert 1.1 5,5\ndelete 1.1\ndelete 1.1\ndelete 7.7\n",
        b"1 0 2 added\n2 2 2 row used\n3 2 3 killed\n4 3 3 not live\n5 3 3 not live\njournal 3\n0 0 open insert 1.1 0,0\n1 0 put 1.1\n2 0 kill 1.1\n",
    ),
    (
        b"class quad\ndelete 0.1\ninsert 4294967295.65535 null\ninsert 1.1 1,1\ndelete 4294967295.65535\nfind null\ninsert 4294967295.65535 1,1\nfind all",
        b"1 0 0 not live\n2 0 2 added\n3 2 4 added\n4 4 5 killed\n5 5 7 found 0 walk 1\n6 7 7 row used\n7 7 9 found 1 walk 2 1.1\njournal 9\n0 0 open insert 4294967295.65535 null\n1 0 put 4294967295.65535\n2 0 open insert 1.1 1,1\n3 0 put 1.1\n4 0 kill 4294967295.65535\n5 0 open scan null\n6 0 close scan 0\n7 0 open scan all\n8 0 close scan 1\n",
    ),
    (
        b"class radix\ninsert 1.1 \"ab\"\ninsert 1.2 \"ab\"\nfind where starts \"a\"\ndelete 1.2\nfind where starts \"a\"\ndelete 1.1\nfind where eq \"ab\"\n",
        b"1 0 2 added\n2 2 4 added\n3 4 6 found 2 walk 2 1.1 1.2\n4 6 7 killed\n5 7 9 found 1 walk 2 1.1\n6 9 10 killed\n7 10 12 found 0 walk 2\njournal 12\n0 0 open insert 1.1 \"ab\"\n1 0 put 1.1\n2 0 open insert 1.2 \"ab\"\n3 0 put 1.2\n4 0 open scan where starts \"a\"\n5 0 close scan 2\n6 0 kill 1.2\n7 0 open scan where starts \"a\"\n8 0 close scan 1\n9 0 kill 1.1\n10 0 open scan where eq \"ab\"\n11 0 close scan 0\n",
    ),
    (
        b"class quad\ninsert 1.1 3,4\nfind all\n",
        b"1 0 2 added\n2 2 4 found 1 walk 1 1.1\njournal 4\n0 0 open insert 1.1 3,4\n1 0 put 1.1\n2 0 open scan all\n3 0 close scan 1\n",
    ),
    (
        b"\n# a town\nclass quad\n\n#insert 1.1 0,0\ninsert 1.2 0,0\n\nstat\n# end",
        b"1 0 2 added\n2 2 2 stat pages 3 inner 0 leaf 1 redirect 0 dead 0 placeholder 0 clock 0\njournal 2\n0 0 open insert 1.2 0,0\n1 0 put 1.2\n",
    ),
    (
        b"class quad\ntogether\nlane\ninsert 1.1 0,0\nfind all\nend\n",
        b"1 0 2 added\n2 2 4 found 1 1.1\njournal 4\n0 0 open insert 1.1 0,0\n1 0 put 1.1\n2 0 open scan all\n3 0 close scan 1\n",
    ),
    (
        b"class quad\ninsert 1.1 1,1\ntogether\nlane\ninsert 1.2 2,2\nfind all\ninsert 1.2 0,0\nend\ntogether\nlane\nlane\ndelete 1.1\nfind null\nlane\nend\nfind all\n",
        b"1 0 2 added\n2 2 4 added\n3 4 6 found 2 1.1 1.2\n4 6 6 row used\n5 6 7 killed\n6 7 9 found 0\n7 9 11 found 1 walk 2 1.2\njournal 11\n0 0 open insert 1.1 1,1\n1 0 put 1.1\n2 0 open insert 1.2 2,2\n3 0 put 1.2\n4 0 open scan all\n5 0 close scan 2\n6 1 kill 1.1\n7 1 open scan null\n8 1 close scan 0\n9 0 open scan all\n10 0 close scan 1\n",
    ),
    (
        b"class quad\ninsert 1.1 0,0\ninsert 1.2 3,4\ninsert 1.3 -3,-4\ninsert 1.4 10,0\ninsert 1.5 null\nnear 0,0 3\nnear 0,0 9\n",
        b"1 0 2 added\n2 2 4 added\n3 4 6 added\n4 6 8 added\n5 8 10 added\n6 10 12 near 3 walk 4 1.1:0 1.2:25 1.3:25\n7 12 14 near 4 walk 4 1.1:0 1.2:25 1.3:25 1.4:100\njournal 14\n0 0 open insert 1.1 0,0\n1 0 put 1.1\n2 0 open insert 1.2 3,4\n3 0 put 1.2\n4 0 open insert 1.3 -3,-4\n5 0 put 1.3\n6 0 open insert 1.4 10,0\n7 0 put 1.4\n8 0 open insert 1.5 null\n9 0 put 1.5\n10 0 open scan all\n11 0 leave\n12 0 open scan all\n13 0 leave\n",
    ),
    (
        b"class kd\nnear 5,5 65535\ninsert 1.1 -2147483648,-2147483648\nnear 2147483647,2147483647 1\n",
        b"1 0 2 near 0 walk 0\n2 2 4 added\n3 4 6 near 1 walk 1 1.1:36893488130239234050\njournal 6\n0 0 open scan all\n1 0 leave\n2 0 open insert 1.1 -2147483648,-2147483648\n3 0 put 1.1\n4 0 open scan all\n5 0 leave\n",
    ),
    (
        b"class kd\ninsert 2.2 1,1\ninsert 2.1 1,1\ninsert 1.9 1,1\ndelete 1.9\nnear 1,1 1\nstat\n",
        b"1 0 2 added\n2 2 4 added\n3 4 6 added\n4 6 7 killed\n5 7 9 near 1 walk 3 2.1:0\n6 9 9 stat pages 3 inner 0 leaf 3 redirect 0 dead 0 placeholder 0 clock 0\njournal 9\n0 0 open insert 2.2 1,1\n1 0 put 2.2\n2 0 open insert 2.1 1,1\n3 0 put 2.1\n4 0 open insert 1.9 1,1\n5 0 put 1.9\n6 0 kill 1.9\n7 0 open scan all\n8 0 leave\n",
    ),
];

#[test]
fn prints_the_run(rt: HostRuntime) -> Result<(), Fail> {
    for (script, text) in &RUNS {
        assert!(rt; ends(&rt, &run_word(), script, no_fails(), (Status::Done, text))?);
    }
    Ok(())
}

/// Bytes that break one rule of the grammar each, and their first bad line.
const BAD: [(&[u8], u32); 86] = [
    (b"", 1),
    (b"class", 1),
    (b"class quad ", 1),
    (b"class bush\n", 1),
    (b"find all\n", 1),
    (b"class kd\nclass kd\n", 2),
    (b"class quad\ninsert 1.1 3,04\n", 2),
    (b"class quad\ninsert 01.1 3,4\n", 2),
    (b"class quad\ninsert 1.0 3,4\n", 2),
    (b"class quad\ninsert 1.65536 3,4\n", 2),
    (b"class quad\ninsert 4294967296.1 3,4\n", 2),
    (b"class quad\ninsert 1 3,4\n", 2),
    (b"class quad\ninsert 1.1 3\n", 2),
    (b"class quad\ninsert 1.1 +3,4\n", 2),
    (b"class quad\ninsert 1.1 -0,4\n", 2),
    (b"class quad\ninsert 1.1 2147483648,4\n", 2),
    (b"class quad\ninsert 1.1 3,-2147483649\n", 2),
    (b"class quad\ninsert 1.1  3,4\n", 2),
    (b"class quad\ninsert 1.1 3,4 \n", 2),
    (b"class quad\ninsert 1.1\t3,4\n", 2),
    (b"class quad\nfind all\ninsert 1.1\n", 3),
    (b"class quad\nfind all\nfind all\n find all", 4),
    (b"class quad\nfind\n", 2),
    (b"class quad\nfind where\n", 2),
    (b"class quad\nfind where left\n", 2),
    (b"class quad\nfind where near 3\n", 2),
    (b"class quad\nfind where left 3 and\n", 2),
    (b"class quad\nfind where left 3 or right 4\n", 2),
    (b"class quad\nfind where in 0,0,5\n", 2),
    (b"class quad\nfind where in 5,0,0,5\n", 2),
    (b"class quad\nfind where in 0,5,5,0\n", 2),
    (
        b"class quad\nfind where left 1 and left 2 and left 3 and left 4 and left 5 and left 6 and left 7 and left 8 and left 9\n",
        2,
    ),
    (b"class radix\ninsert 1.1 \"ab\n", 2),
    (b"class radix\ninsert 1.1 ab\"\n", 2),
    (b"class radix\ninsert 1.1 \"a\\x4\"\n", 2),
    (b"class radix\ninsert 1.1 \"a\\X41\"\n", 2),
    (b"class radix\ninsert 1.1 \"a\\x4g\"\n", 2),
    (b"class radix\ninsert 1.1 \"a\\\"\"\n", 2),
    (b"class radix\ninsert 1.1 \"a\x01b\"\n", 2),
    (b"class radix\ninsert 1.1 \"a\tb\"\n", 2),
    (b"class radix\ninsert 1.1 \"a\x7fb\"\n", 2),
    (b"class radix\ninsert 1.1 \"a\" \n", 2),
    (b"class radix\ninsert 1.1 \"a\"b\n", 2),
    (b"class radix\ninsert 1.1 \"a\"\"\n", 2),
    (b"class radix\ninsert 1.1 3,4\n", 2),
    (b"class radix\ninsert 1.1 text\n", 2),
    (b"class radix\nfind where left 3\n", 2),
    (b"class radix\nfind where eq 3,4\n", 2),
    (b"class radix\nfind where eq \"a\" \n", 2),
    (b"class radix\nfind where eq\"a\"\n", 2),
    (b"class radix\nfind where eq \"a\"and eq \"b\"\n", 2),
    (b"class radix\nfind where eq \"a\" and\n", 2),
    (b"class radix\nfind where starts a\n", 2),
    (b"class radix\nfind where in \"a\"\n", 2),
    (b"class quad\ninsert 1.1 \"a\"\n", 2),
    (b"class kd\nfind where eq \"a\"\n", 2),
    (b"class quad\nfind where starts \"3\"\n", 2),
    (b"class radi\n", 1),
    (b"class quad\nfind where left 3 and  right 4\n", 2),
    (b"class quad\nfind everything\n", 2),
    (b"class quad\ndelete\n", 2),
    (b"class quad\ndelete \n", 2),
    (b"class quad\ndelete 1.1 \n", 2),
    (b"class kd\ndelete 1.0\n", 2),
    (b"class kd\ndelete 1.1 3,4\n", 2),
    (b"class radix\ndelete  1.1\n", 2),
    (b"class radix\ndelete 1.1\ndelete 1.01\n", 3),
    (b"class quad\n\n# x\ninsert 1.1 0,0\nbad\n", 5),
    (b"class quad\ntogether\nlane\n", 4),
    (b"class quad\ntogether\nend\n", 3),
    (b"class quad\ntogether\nlane\nstat\nend\n", 4),
    (b"class quad\ntogether\nlane\nsave a\nend\n", 4),
    (b"class kd\ntogether\ninsert 1.1 0,0\n", 3),
    (b"class kd\nsave .town\n", 2),
    (b"class kd\nsave\n", 2),
    (b"class kd\nend\n", 2),
    (b"class kd\nlane\n", 2),
    (b"class kd\n vacuum\n", 2),
    (b"class kd\nstat \n", 2),
    (b"class kd\nsave Town\n", 2),
    (b"class kd\n #\n", 2),
    (b"\n#\n", 3),
    (b"class radix\nnear 1,1 1\n", 2),
    (b"class quad\nnear 1,1 0\n", 2),
    (b"class quad\nnear 1,1 65536\n", 2),
    (b"class kd\ntogether\nlane\nnear 1,1 1\nend\n", 4),
];

#[test]
fn tells_the_first_bad_line(rt: HostRuntime) -> Result<(), Fail> {
    for (script, line) in &BAD {
        let wanted: (Status, &[u8]) = (Status::BadScript(*line), b"");
        assert!(rt; ends(&rt, &run_word(), script, no_fails(), wanted)?);
    }
    Ok(())
}
