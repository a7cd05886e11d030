// Runs of scripts over a store in memory: how each ends, and what stands in the store then.
use crate::first_is_null::FirstIsNull;
use crate::marking::Marking;
use crate::silent::Silent;
use scope_app::{Status, read_dag, scope_main, status_line, status_number};
use scope_outside::MemStore;
use scope_shipped::TextExtractor;
use std::alloc::{AllocError, Global};
use std::test::Fail;
use user_ops::OpSet;

// A run, and what comes of it.
//
// Words are parted by spaces. The script is the file `s`. Other files are parted by `|`, each as its name, `:` and its bytes, where `~` stands
// for the byte 255. A run ends with a number and, behind a space, a line. Files that it doesn't write stay as they were.
#[derive(Clone, Copy)]
struct Run<'a> {
    words: &'a str,
    script: &'a str,
    files: &'a str,
    // The read and the write that fail, counted from 1; 0 is none.
    failing_read: u64,
    failing_write: u64,
    ends: &'a str,
    written: &'a str,
}

const COPY: Run<'static> = Run {
    words: "scope run s",
    script: "e = EXTRACT a:int, b FROM \"in\" USING TextExtractor; OUTPUT e TO \"out\";",
    files: "in:1,x\n2,y\n",
    failing_read: 0,
    failing_write: 0,
    ends: "0",
    written: "out:1,x\n2,y\n",
};

// A copy that ends before it writes.
const STOPS: Run<'static> = Run {
    written: "",
    ..COPY
};

// A copy of a stream of two parts.
const SIZED: Run<'static> = Run {
    words: "scope run s --sizes z",
    files: "z:stream,in,4,2\n|in.0:1,x\n|in.1:2,y\n",
    ..COPY
};

// The second stream is read first and once, for its result is shared.
const SHARED: Run<'static> = Run {
    script: "a = EXTRACT a FROM \"in\" USING TextExtractor; b = EXTRACT b:int FROM \"in2\" USING TextExtractor; OUTPUT a TO \"out\"; OUTPUT b TO \"out2\"; OUTPUT b TO \"out3\";",
    files: "in:x\n|in2:2\n|out:old\n|out2:old\n",
    written: "out:x\n|out2:2\n|out3:2\n",
    ..COPY
};

// Two EXTRACTs name one stream, which is read twice.
const TWICE: Run<'static> = Run {
    script: "e = EXTRACT a:int, b FROM \"in\" USING TextExtractor; f = EXTRACT c, d FROM \"in\" USING TextExtractor; OUTPUT e TO \"out\"; OUTPUT f TO \"out2\";",
    written: "out:1,x\n2,y\n|out2:1,x\n2,y\n",
    ..COPY
};

const STORED: Run<'static> = Run {
    script: "e = EXTRACT a:int, b FROM \"in\" USING TextExtractor; OUTPUT e TO \"out\" STORED HASH(a);",
    ends: "20 scope: not built",
    ..STOPS
};

const SELECT: Run<'static> = Run {
    script: "e = EXTRACT k, v:int FROM \"in\" USING TextExtractor; f = SELECT k, v * 2 AS w FROM e WHERE v >= 2; OUTPUT f TO \"out\";",
    files: "in:a,1\nb,2\nc,\nd,7\n",
    written: "out:b,4\nd,14\n",
    ..COPY
};

const MARKED: Run<'static> = Run {
    script: "e = EXTRACT m FROM \"in\" USING Marking; OUTPUT e TO \"out\";",
    files: "in:1\n2,3\n",
    written: "out:seen\nseen\n",
    ..COPY
};

const REFUSED: Run<'static> = Run {
    script: "e = EXTRACT m FROM \"in\" USING Silent; OUTPUT e TO \"out\";",
    ends: "9 scope: in: part 0: record 1",
    ..STOPS
};

// The sizes and the stream would end the run too, but nothing is read behind the script.
const FAULTY: Run<'static> = Run {
    words: "scope run s --sizes z",
    script: "OUTPUT;",
    files: "z:stream\n",
    failing_read: 2,
    ends: "6 scope: statement 1 is outside the grammar",
    ..STOPS
};

// Nothing is read for these words.
const UNREADABLE: Run<'static> = Run {
    failing_read: 1,
    ends: "20 scope: not built",
    ..STOPS
};

const RUNS: [Run<'static>; 81] = [
    // Rows.
    COPY,
    Run {
        files: "in:,x\n",
        written: "out:\\N,x\n",
        ..COPY
    },
    Run {
        files: "in:",
        written: "out:",
        ..COPY
    },
    Run {
        files: "in:1,x\r\n\r\n2,\"a,\"\"b\"",
        written: "out:1,x\n2,\"a,\"\"b\"\n",
        ..COPY
    },
    Run {
        files: "in:7,~\n",
        written: "out:7,~\n",
        ..COPY
    },
    Run {
        files: "in:1,x\n|out:old\n|out2:old\n",
        written: "out:1,x\n",
        ..COPY
    },
    SELECT,
    Run {
        script: "e = EXTRACT k, v:int FROM \"in\" USING TextExtractor; f = SELECT k, v * 2 AS w FROM e WHERE v < 2; OUTPUT f TO \"out\";",
        written: "out:a,2\nc,\\N\n",
        ..SELECT
    },
    Run {
        script: "",
        ..STOPS
    },
    // Operators that are not shipped.
    MARKED,
    Run {
        script: "e = EXTRACT a:int, b FROM \"in\" USING TextExtractor; p = PROCESS e USING FirstIsNull PRODUCE n:bool; OUTPUT p TO \"out\";",
        files: "in:1,x\n,y\n",
        written: "out:false\ntrue\n",
        ..COPY
    },
    Run {
        script: "e = EXTRACT a:int, b FROM \"in\" USING TextExtractor; p = PROCESS e USING Silent PRODUCE n:bool; OUTPUT p TO \"out\";",
        written: "out:",
        ..COPY
    },
    Run {
        script: "e = EXTRACT a:int, b FROM \"in\" USING TextExtractor; r = REDUCE e ON a USING Silent PRODUCE n; OUTPUT r TO \"out\";",
        written: "out:",
        ..COPY
    },
    Run {
        script: "e = EXTRACT a:int, b FROM \"in\" USING TextExtractor; c = COMBINE e AS l WITH e AS r ON l.a == r.a USING Silent PRODUCE n; SELECT COUNT(*) AS n FROM c; OUTPUT TO \"out\";",
        written: "out:0\n",
        ..COPY
    },
    Run {
        script: "e = EXTRACT a:int, b FROM \"in\" USING TextExtractor; r = REDUCE e ON a USING Silent(1, 2, 3, 4, 5, 6, 7, 8, 9, 10, 11, 12, 13, 14, 15, -16) PRODUCE n; OUTPUT r TO \"out\";",
        written: "out:",
        ..COPY
    },
    Run {
        script: "e = EXTRACT a:int, b FROM \"in\" USING TextExtractor; r = REDUCE e ON a USING Silent(1, 2, 3, 4, 5, 6, 7, 8, 9, 10, 11, 12, 13, 14, 15, 16, 17) PRODUCE n;",
        ends: "7 scope: statement 2: Limit(Args)",
        ..STOPS
    },
    // Files of sizes.
    SIZED,
    Run {
        words: "scope --sizes=z run s",
        ..SIZED
    },
    Run {
        files: "z:stream,in,4,2\n|in:q\n|in.0:1,x\n|in.1:2,y\n|in.2:q\n",
        ..SIZED
    },
    Run {
        files: "z:stream,in,4,1\n|in:1,x\n|in.0:q\n",
        written: "out:1,x\n",
        ..SIZED
    },
    Run {
        files: "z:stream,other,4,2\n|in:1,x\n",
        written: "out:1,x\n",
        ..SIZED
    },
    Run {
        files: "z:|in:1,x\n",
        written: "out:1,x\n",
        ..SIZED
    },
    Run {
        files: "z:stream\n|in:1,x\n",
        written: "out:1,x\n",
        ..COPY
    },
    Run {
        files: "z:stream,in,4,2\nstream,in,0,2\n",
        ends: "8 scope: sizes: record 2",
        written: "",
        ..SIZED
    },
    Run {
        files: "z:stream,in,4,65\n",
        ends: "8 scope: sizes: record 1",
        written: "",
        ..SIZED
    },
    // What is read in turn, by the read that fails.
    Run {
        failing_read: 1,
        ends: "3 scope: cannot read s",
        ..STOPS
    },
    Run {
        failing_read: 2,
        ends: "3 scope: cannot read in",
        ..STOPS
    },
    Run {
        failing_read: 3,
        ..COPY
    },
    Run {
        failing_read: 2,
        ends: "3 scope: cannot read z",
        written: "",
        ..SIZED
    },
    Run {
        failing_read: 3,
        ends: "3 scope: cannot read in.0",
        written: "",
        ..SIZED
    },
    Run {
        failing_read: 4,
        ends: "3 scope: cannot read in.1",
        written: "",
        ..SIZED
    },
    Run {
        failing_read: 5,
        ..SIZED
    },
    Run {
        failing_read: 2,
        ends: "3 scope: cannot read in2",
        written: "",
        ..SHARED
    },
    Run {
        failing_read: 3,
        ends: "3 scope: cannot read in",
        written: "",
        ..SHARED
    },
    Run {
        failing_read: 4,
        ..SHARED
    },
    Run {
        failing_read: 3,
        ends: "3 scope: cannot read in",
        written: "",
        ..TWICE
    },
    Run {
        failing_read: 4,
        ..TWICE
    },
    Run {
        script: "f = EXTRACT c FROM \"nothing\" USING TextExtractor; e = EXTRACT a:int, b FROM \"in\" USING TextExtractor; OUTPUT e TO \"out\";",
        failing_read: 3,
        ..COPY
    },
    // What is written in turn, by the write that fails.
    Run {
        files: "in:1,x\n|out:old\n",
        failing_write: 1,
        ends: "12 scope: cannot write out",
        ..STOPS
    },
    Run {
        failing_write: 2,
        ..COPY
    },
    Run {
        failing_write: 1,
        ends: "12 scope: cannot write out",
        written: "",
        ..SHARED
    },
    Run {
        failing_write: 2,
        ends: "12 scope: cannot write out2",
        written: "out:x\n",
        ..SHARED
    },
    Run {
        failing_write: 3,
        ends: "12 scope: cannot write out3",
        written: "out:x\n|out2:2\n",
        ..SHARED
    },
    Run {
        failing_write: 4,
        ..SHARED
    },
    // What is missing, and records that are refused: the first in turn.
    Run {
        words: "scope run t",
        ends: "4 scope: no stream t",
        ..STOPS
    },
    Run {
        files: "",
        ends: "4 scope: no stream in",
        ..STOPS
    },
    Run {
        files: "",
        failing_read: 2,
        ends: "4 scope: no stream in",
        ..STOPS
    },
    Run {
        files: "in:1,x\nq,y\n|out:old\n",
        ends: "9 scope: in: part 0: record 2",
        ..STOPS
    },
    Run {
        files: "in:1,x\n\n\n3\n",
        ends: "9 scope: in: part 0: record 2",
        ..STOPS
    },
    Run {
        files: "in:1\n2\n",
        ..REFUSED
    },
    Run {
        files: "in:",
        ends: "0",
        written: "out:",
        ..REFUSED
    },
    Run {
        files: "in.0:1,x\n|in.1:2,y\n",
        ends: "4 scope: no stream z",
        written: "",
        ..SIZED
    },
    Run {
        files: "z:stream,in,4,2\n|in.0:1,x\n",
        ends: "4 scope: no stream in.1",
        written: "",
        ..SIZED
    },
    Run {
        files: "z:stream,in,4,2\n|in.1:q\n",
        ends: "4 scope: no stream in.0",
        written: "",
        ..SIZED
    },
    Run {
        files: "z:stream,in,4,2\n|in.0:q\n",
        ends: "9 scope: in: part 0: record 1",
        written: "",
        ..SIZED
    },
    Run {
        files: "z:stream,in,4,2\n|in.0:1,x\n|in.1:2,y\nq,z\n",
        ends: "9 scope: in: part 1: record 2",
        written: "",
        ..SIZED
    },
    Run {
        files: "",
        ends: "4 scope: no stream in2",
        written: "",
        ..SHARED
    },
    Run {
        files: "in2:2\n|out:old\n",
        ends: "4 scope: no stream in",
        written: "",
        ..SHARED
    },
    Run {
        files: "in2:2\nq\n|out2:old\n",
        ends: "9 scope: in2: part 0: record 2",
        written: "",
        ..SHARED
    },
    // What is wrong with a script comes before the sizes and the streams.
    Run {
        script: "~",
        ends: "5 scope: script is not UTF-8",
        ..FAULTY
    },
    Run {
        script: "a = #",
        ends: "6 scope: no token at byte 4",
        ..FAULTY
    },
    FAULTY,
    Run {
        script: ";;e = EXTRACT a:int, b FROM \"in\" USING TextExtractor;; OUTPUT e;",
        ends: "6 scope: statement 2 is outside the grammar",
        ..FAULTY
    },
    Run {
        script: "OUTPUT f TO \"out\";",
        ends: "7 scope: statement 1: UnknownName",
        ..FAULTY
    },
    Run {
        script: "e = EXTRACT a FROM \"in\" USING Nobody; OUTPUT e TO \"out\";",
        ends: "7 scope: statement 1: UnknownOperator",
        ..FAULTY
    },
    Run {
        script: "e = EXTRACT a, b FROM \"in\" USING Marking; OUTPUT e TO \"out\";",
        ends: "7 scope: statement 1: SchemaRefused",
        ..FAULTY
    },
    Run {
        script: "e = EXTRACT a:int, b FROM \"in\" USING TextExtractor; PROCESS e USING FirstIsNull PRODUCE n:int; OUTPUT TO \"out\";",
        ends: "7 scope: statement 2: SchemaRefused",
        ..FAULTY
    },
    Run {
        script: "e = EXTRACT a:int, b FROM \"in\" USING TextExtractor; OUTPUT e TO \"out\" STORED HASH(c);",
        ends: "7 scope: statement 2: UnknownColumn",
        ..FAULTY
    },
    // So does a stored stream.
    STORED,
    Run {
        failing_read: 2,
        ..STORED
    },
    Run {
        files: "",
        ..STORED
    },
    Run {
        words: "scope run s --sizes z",
        ..STORED
    },
    Run {
        script: "e = EXTRACT a:int, b FROM \"in\" USING TextExtractor STORED HASH(a) SORTED(b); OUTPUT e TO \"out\";",
        ..STORED
    },
    // Words without a reading.
    Run {
        words: "",
        ..UNREADABLE
    },
    Run {
        words: "scope run",
        ..UNREADABLE
    },
    Run {
        words: "scope plan s",
        ..UNREADABLE
    },
    Run {
        words: "scope run -s",
        ..UNREADABLE
    },
    Run {
        words: "scope run s t",
        ..UNREADABLE
    },
    Run {
        words: "scope run s --sizes",
        ..UNREADABLE
    },
    Run {
        words: "scope run s --parts 2",
        ..UNREADABLE
    },
    Run {
        words: "scope run s --sizes z --sizes z",
        ..UNREADABLE
    },
];

fn bytes_of(alloc: Global, text: &str) -> Result<Vec<u8>, AllocError> {
    let mut bytes = Vec::new(alloc);
    for byte in text.as_bytes() {
        bytes.push(if *byte == b'~' { 255 } else { *byte })?;
    }
    Ok(bytes)
}

// The text of the file of this name among those that are listed.
fn listed<'a>(files: &'a str, name: &str) -> Option<&'a str> {
    for file in files.split('|') {
        match file.split_once(':') {
            Some((key, text)) if key == name => return Some(text),
            _ => {}
        }
    }
    None
}

fn put_files(alloc: Global, store: &mut MemStore, files: &str) -> Result<(), AllocError> {
    for file in files.split('|') {
        if let Some((name, text)) = file.split_once(':') {
            store.put(name.as_bytes(), bytes_of(alloc, text)?.as_slice())?;
        }
    }
    Ok(())
}

fn store_of(alloc: Global, run: &Run<'_>) -> Result<MemStore, AllocError> {
    let mut store = MemStore::new(alloc);
    store.put(b"s", bytes_of(alloc, run.script)?.as_slice())?;
    put_files(alloc, &mut store, run.files)?;
    store.fail_read(run.failing_read)?;
    store.fail_write(run.failing_write)?;
    Ok(store)
}

fn words_of(alloc: Global, text: &str) -> Result<Vec<String>, AllocError> {
    let mut words = Vec::new(alloc);
    for word in text.split_whitespace() {
        words.push(String::from_str(alloc, word)?)?;
    }
    Ok(words)
}

fn run_on(
    alloc: Global,
    ops: &OpSet,
    words: &str,
    store: &mut MemStore,
) -> Result<Status, AllocError> {
    let words = words_of(alloc, words)?;
    Ok(scope_main(alloc, words.as_slice(), store, ops))
}

fn is_told(alloc: Global, status: &Status, ends: &str) -> Result<bool, AllocError> {
    let (number, line) = ends.split_once(' ').unwrap_or((ends, ""));
    let mut told = Vec::new(alloc);
    status_line(status, &mut told)?;
    Ok(
        number.parse::<u32>().unwrap_or(u32::MAX) == status_number(status)
            && told.as_slice() == line.as_bytes(),
    )
}

// Whether the file stands as the run writes it, or else as it was.
fn stands(alloc: Global, store: &MemStore, run: &Run<'_>, name: &str) -> Result<bool, AllocError> {
    let want = listed(run.written, name).or(listed(run.files, name));
    match (store.get(name.as_bytes())?, want) {
        (Some(bytes), Some(text)) => Ok(bytes == bytes_of(alloc, text)?.as_slice()),
        (None, None) => Ok(true),
        _ => Ok(false),
    }
}

fn all_stand(alloc: Global, store: &MemStore, run: &Run<'_>) -> Result<bool, AllocError> {
    for name in ["in", "out", "out2", "out3"] {
        if !stands(alloc, store, run, name)? {
            return Ok(false);
        }
    }
    Ok(true)
}

fn is_so(alloc: Global, ops: &OpSet, run: &Run<'_>) -> Result<bool, AllocError> {
    let mut store = store_of(alloc, run)?;
    let status = run_on(alloc, ops, run.words, &mut store)?;
    Ok(is_told(alloc, &status, run.ends)? && all_stand(alloc, &store, run)?)
}

// The first run that isn't so, their number where there is none.
fn first_wrong(alloc: Global, ops: &OpSet, runs: &[Run<'_>]) -> Result<usize, AllocError> {
    for (at, run) in runs.iter().enumerate() {
        if !is_so(alloc, ops, run)? {
            return Ok(at);
        }
    }
    Ok(runs.len())
}

// How many scans and outputs the Dag of the run's script has, if it binds.
fn counts(alloc: Global, ops: &OpSet, run: &Run<'_>) -> Result<Option<(usize, usize)>, AllocError> {
    let mut store = store_of(alloc, run)?;
    match read_dag(alloc, b"s", &mut store, ops) {
        Ok(dag) => Ok(Some((dag.scans.len(), dag.outputs.len()))),
        Err(_) => Ok(None),
    }
}

#[test]
fn scripts_end_as_they_should(rt: HostRuntime) -> Result<(), Fail> {
    let alloc = rt.alloc();
    let mut ops = OpSet::new(alloc);
    let op = Box::new(alloc, TextExtractor)?;
    assert!(rt; ops.put_extractor(alloc, b"TextExtractor", op));
    let op = Box::new(alloc, Marking)?;
    assert!(rt; ops.put_extractor(alloc, b"Marking", op));
    let op = Box::new(alloc, Silent { delimiter: b',' })?;
    assert!(rt; ops.put_extractor(alloc, b"Silent", op));
    let op = Box::new(alloc, FirstIsNull)?;
    assert!(rt; ops.put_processor(alloc, b"FirstIsNull", op));
    let op = Box::new(alloc, Silent { delimiter: b',' })?;
    assert!(rt; ops.put_processor(alloc, b"Silent", op));
    let op = Box::new(alloc, Silent { delimiter: b',' })?;
    assert!(rt; ops.put_reducer(alloc, b"Silent", op));
    let op = Box::new(alloc, Silent { delimiter: b',' })?;
    assert!(rt; ops.put_combiner(alloc, b"Silent", op));
    assert_eq!(rt; first_wrong(alloc, &ops, &RUNS)?, RUNS.len());
    assert!(rt; counts(alloc, &ops, &SHARED)? == Some((2, 3)));
    assert!(rt; counts(alloc, &ops, &STORED)? == Some((1, 1)));
    assert!(rt; counts(alloc, &ops, &FAULTY)?.is_none());
    Ok(())
}
