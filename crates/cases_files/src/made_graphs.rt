//! Graphs that are made from seeds.

use graph_maker::make_graph;
use std::test::Fail;

/// The first row has no edges. The others were reckoned apart, in Python: loops, pairs that come again in the same
/// order and in the other, fewer edges than were asked for, the greatest seed.
#[test]
fn graphs_are_those_of_the_words_of_their_seeds(rt: HostRuntime) -> Result<(), Fail> {
    let cases = [
        (0, 4, 0, "1\n2\n3\n4\n"),
        (0, 10, 2, "1\n2\n3\n4\n5\n6\n7\n8\n9\n10\n6 1\n10 5\n"),
        (0, 2, 3, "1\n2\n2 1\n"),
        (1, 3, 3, "1\n2\n3\n3 2\n1 3\n1 2\n"),
        (7, 3, 4, "1\n2\n3\n2 1\n"),
        (
            18446744073709551615,
            4,
            5,
            "1\n2\n3\n4\n1 2\n2 3\n3 4\n2 4\n",
        ),
    ];
    for (seed, vertices, edges, want) in cases {
        let made = make_graph(rt.alloc(), seed, vertices, edges)?;
        let mut texts = made.vertices;
        texts.push_bytes(made.edges.as_slice())?;
        assert_eq!(rt; texts.as_slice(), want.as_bytes());
    }
    Ok(())
}
