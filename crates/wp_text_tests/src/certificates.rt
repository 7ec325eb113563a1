//! Certificates that are read, and what they are printed as.
use std::alloc::Global;
use wp_cert::{check, print_certificate, read_certificate};
use wp_graph::Layout;
use wp_model::Memory;

/// Three orders at one slot, at most two in a batch: a split on the first two orders, and two leaves.
const WORKED: &str = "{\"capacity\":2,\"nodes\":[\
    {\"duals\":[1020,1020,1020],\"first\":0,\"kind\":\"split\",\"marks\":\"1000\",\"second\":1,\"tight\":[[0,1],[0,1],[0,2]]},\
    {\"duals\":[1020,1020,2040],\"kind\":\"leaf\",\"marks\":\"100\",\"tight\":[[0,1],[0,1],[2]]},\
    {\"duals\":[2040,2040,0],\"kind\":\"leaf\",\"marks\":\"11000\",\"tight\":[[0],[1],[0,2]]}],\
    \"orders\":[[[3,4]],[[3,4]],[[3,4]]],\"version\":1}";

/// Three orders of three units each at one slot, at most two in a batch, and a cart that holds five units: a leaf.
const LOADED: &str = "{\"capacity\":2,\"loads\":[3,3,3],\
    \"nodes\":[{\"duals\":[2040,2040,2040],\"kind\":\"leaf\",\"marks\":\"1110\",\"tight\":[[0],[1],[2]]}],\
    \"orders\":[[[3,4]],[[3,4]],[[3,4]]],\"units\":5,\"version\":2}";

/// Three orders at one slot, at most two in a batch: each of the two batches or more pays its whole length.
const COUNTED: &str =
    "{\"capacity\":2,\"cuts\":[],\"nodes\":[{\"count\":2040,\"duals\":[0,0,0],\"kind\":\"leaf\",\"marks\":\"1000\",\"prices\":[],\"tight\":[[0],[1],[2]]}],\"orders\":[[[3,4]],[[3,4]],[[3,4]]],\"step\":2,\"version\":3}";

/// The same with a cut: of the three orders two batches or more take at most two together.
const CUT: &str =
    "{\"capacity\":2,\"cuts\":[{\"divisor\":2,\"orders\":[0,1,2],\"parts\":[1,1,1]}],\"nodes\":[{\"count\":0,\"duals\":[2040,2040,2040],\"kind\":\"leaf\",\"marks\":\"1100100\",\"prices\":[2040],\"tight\":[[0],[0,1],[0,2]]}],\"orders\":[[[3,4]],[[3,4]],[[3,4]]],\"step\":2,\"version\":3}";

/// Certificates that are printed again as they are.
const PRINTED: &[&str] = &[
    WORKED,
    LOADED,
    COUNTED,
    CUT,
    "{\"capacity\":2,\"cuts\":[],\"loads\":[1,1,1],\"nodes\":[{\"count\":2040,\"duals\":[0,0,0],\"kind\":\"leaf\",\"marks\":\"1000\",\"prices\":[],\"tight\":[[0],[1],[2]]}],\"orders\":[[[3,4]],[[3,4]],[[3,4]]],\"step\":2,\"units\":1,\"version\":3}",
    "{\"capacity\":8,\"cuts\":[{\"divisor\":4294967295,\"orders\":[],\"parts\":[0]}],\"nodes\":[{\"count\":1000000000000,\"duals\":[],\"first\":0,\"kind\":\"split\",\"marks\":\"\",\"prices\":[0,1000000000000],\"second\":1,\"tight\":[]},{\"kind\":\"kept\"}],\"orders\":[[[1,1]]],\"step\":2,\"version\":3}",
    "{\"capacity\":1,\"loads\":[40000000],\"nodes\":[],\"orders\":[[[1,1]]],\"units\":40000000,\"version\":2}",
    "{\"capacity\":8,\"loads\":[0,1],\"nodes\":[],\"orders\":[[[1,1]],[[3,4]]],\"units\":1,\"version\":2}",
    "{\"capacity\":1,\"nodes\":[{\"kind\":\"kept\"}],\"orders\":[[[1,1]]],\"version\":1}",
    "{\"capacity\":8,\"nodes\":[],\"orders\":[[[1,1],[1,4],[2,2],[3,4]]],\"version\":1}",
    "{\"capacity\":8,\"nodes\":[{\"kind\":\"dead\",\"order\":4294967295},\
     {\"first\":4294967295,\"kind\":\"split\",\"second\":0}],\"orders\":[[[1,1]]],\"version\":1}",
    "{\"capacity\":8,\"nodes\":[{\"duals\":[],\"kind\":\"leaf\",\"marks\":\"\",\"tight\":[[],[63],[0,1,2,3,62,63]]}],\"orders\":[[[1,1]]],\"version\":1}",
    "{\"capacity\":8,\"nodes\":[{\"duals\":[1000000000000,0],\"kind\":\"leaf\",\"marks\":\"01\",\"tight\":[]}],\"orders\":[[[1,1]]],\"version\":1}",
];

/// Texts, and how the certificate that they say is printed.
const PRINTED_OTHERWISE: &[(&str, &str)] = &[
    (
        " { \"version\" : 1 , \"orders\" : [ [ [ 3 , 4 ] , [ 1 , 2 ] , [ 3 , 4 ] , [ 1 , 1 ] ] ] , \"nodes\" : [ ] , \"capacity\" : 1 } ",
        "{\"capacity\":1,\"nodes\":[],\"orders\":[[[1,1],[1,2],[3,4]]],\"version\":1}",
    ),
    (
        "{\"capacity\":9,\"nodes\":[{\"k\\u0069nd\":\"kept\"}],\"orders\":[[[1,1]]],\"version\":1,\"capacity\":3}",
        "{\"capacity\":3,\"nodes\":[{\"kind\":\"kept\"}],\"orders\":[[[1,1]]],\"version\":1}",
    ),
    (
        "{ \"version\" : 2 , \"units\" : 7 , \"orders\" : [ [ [ 3 , 4 ] ] , [ [ 1 , 1 ] ] ] , \"nodes\" : [ ] , \"loads\" : [ 7 , 2 ] , \"capacity\" : 1 }",
        "{\"capacity\":1,\"loads\":[7,2],\"nodes\":[],\"orders\":[[[3,4]],[[1,1]]],\"units\":7,\"version\":2}",
    ),
];

/// Certificates that are refused, and how.
const REFUSED: &[(&str, &str)] = &[
    (
        "{\"capacity\":2,\"cuts\":[],\"nodes\":[{\"count\":2040,\"duals\":[0,0,0],\"kind\":\"leaf\",\"marks\":\"1000\",\"prices\":[],\"tight\":[[0],[1],[2]]}],\"orders\":[[[3,4]],[[3,4]],[[3,4]]],\"step\":2,\"version\":1}",
        "out-of-range",
    ),
    (
        "{\"capacity\":2,\"cuts\":[],\"nodes\":[{\"count\":2040,\"duals\":[0,0,0],\"kind\":\"leaf\",\"marks\":\"1000\",\"prices\":[],\"tight\":[[0],[1],[2]]}],\"orders\":[[[3,4]],[[3,4]],[[3,4]]],\"step\":2,\"version\":2}",
        "out-of-range",
    ),
    (
        "{\"capacity\":2,\"cuts\":[],\"nodes\":[{\"count\":2040,\"duals\":[0,0,0],\"kind\":\"leaf\",\"marks\":\"1000\",\"prices\":[],\"tight\":[[0],[1],[2]]}],\"orders\":[[[3,4]],[[3,4]],[[3,4]]],\"step\":4,\"version\":3}",
        "out-of-range",
    ),
    (
        "{\"capacity\":2,\"cuts\":[],\"nodes\":[{\"count\":1000000000001,\"duals\":[0,0,0],\"kind\":\"leaf\",\"marks\":\"1000\",\"prices\":[],\"tight\":[[0],[1],[2]]}],\"orders\":[[[3,4]],[[3,4]],[[3,4]]],\"step\":2,\"version\":3}",
        "out-of-range",
    ),
    (
        "{\"capacity\":2,\"cuts\":[{\"divisor\":2,\"orders\":[0,1,2],\"parts\":[1,1,1]}],\"nodes\":[{\"count\":0,\"duals\":[2040,2040,2040],\"kind\":\"leaf\",\"marks\":\"1100100\",\"prices\":[1000000000001],\"tight\":[[0],[0,1],[0,2]]}],\"orders\":[[[3,4]],[[3,4]],[[3,4]]],\"step\":2,\"version\":3}",
        "out-of-range",
    ),
    (
        "{\"capacity\":2,\"nodes\":[{\"count\":2040,\"duals\":[0,0,0],\"kind\":\"leaf\",\"marks\":\"1000\",\"prices\":[],\"tight\":[[0],[1],[2]]}],\"orders\":[[[3,4]],[[3,4]],[[3,4]]],\"step\":2,\"version\":3}",
        "bad-shape",
    ),
    (
        "{\"capacity\":2,\"cuts\":[],\"nodes\":[{\"count\":2040,\"duals\":[0,0,0],\"kind\":\"leaf\",\"marks\":\"1000\",\"prices\":[],\"tight\":[[0],[1],[2]]}],\"orders\":[[[3,4]],[[3,4]],[[3,4]]],\"version\":3}",
        "bad-shape",
    ),
    (
        "{\"capacity\":2,\"cuts\":[],\"nodes\":[{\"count\":2040,\"duals\":[0,0,0],\"kind\":\"leaf\",\"marks\":\"1000\",\"tight\":[[0],[1],[2]]}],\"orders\":[[[3,4]],[[3,4]],[[3,4]]],\"step\":2,\"version\":3}",
        "bad-shape",
    ),
    (
        "{\"capacity\":2,\"cuts\":[{\"divisor\":4294967296,\"orders\":[0,1,2],\"parts\":[1,1,1]}],\"nodes\":[{\"count\":0,\"duals\":[2040,2040,2040],\"kind\":\"leaf\",\"marks\":\"1100100\",\"prices\":[2040],\"tight\":[[0],[0,1],[0,2]]}],\"orders\":[[[3,4]],[[3,4]],[[3,4]]],\"step\":2,\"version\":3}",
        "bad-shape",
    ),
    (
        "{\"capacity\":2,\"cuts\":[{\"divisor\":2,\"orders\":[0,1,2],\"parts\":[1,1,4294967296]}],\"nodes\":[{\"count\":0,\"duals\":[2040,2040,2040],\"kind\":\"leaf\",\"marks\":\"1100100\",\"prices\":[2040],\"tight\":[[0],[0,1],[0,2]]}],\"orders\":[[[3,4]],[[3,4]],[[3,4]]],\"step\":2,\"version\":3}",
        "bad-shape",
    ),
    (
        "{\"capacity\":2,\"cuts\":[{\"divisor\":2,\"kind\":1,\"orders\":[0,1,2],\"parts\":[1,1,1]}],\"nodes\":[{\"count\":0,\"duals\":[2040,2040,2040],\"kind\":\"leaf\",\"marks\":\"1100100\",\"prices\":[2040],\"tight\":[[0],[0,1],[0,2]]}],\"orders\":[[[3,4]],[[3,4]],[[3,4]]],\"step\":2,\"version\":3}",
        "bad-shape",
    ),
    (
        "{\"capacity\":2,\"loads\":[3,3,6],\"nodes\":[{\"duals\":[2040,2040,2040],\"kind\":\"leaf\",\"marks\":\"1110\",\"tight\":[[0],[1],[2]]}],\"orders\":[[[3,4]],[[3,4]],[[3,4]]],\"units\":5,\"version\":2}",
        "out-of-range",
    ),
    (
        "{\"capacity\":2,\"loads\":[3,3,3],\"nodes\":[{\"duals\":[2040,2040,2040],\"kind\":\"leaf\",\"marks\":\"1110\",\"tight\":[[0],[1],[2]]}],\"orders\":[[[3,4]],[[3,4]],[[3,4]]],\"units\":0,\"version\":2}",
        "out-of-range",
    ),
    (
        "{\"capacity\":2,\"loads\":[3,3,3],\"nodes\":[{\"duals\":[2040,2040,2040],\"kind\":\"leaf\",\"marks\":\"1110\",\"tight\":[[0],[1],[2]]}],\"orders\":[[[3,4]],[[3,4]],[[3,4]]],\"units\":40000001,\"version\":2}",
        "out-of-range",
    ),
    (
        "{\"capacity\":2,\"loads\":[3,3],\"nodes\":[{\"duals\":[2040,2040,2040],\"kind\":\"leaf\",\"marks\":\"1110\",\"tight\":[[0],[1],[2]]}],\"orders\":[[[3,4]],[[3,4]],[[3,4]]],\"units\":5,\"version\":2}",
        "out-of-range",
    ),
    (
        "{\"capacity\":2,\"loads\":[3,3,3,3],\"nodes\":[{\"duals\":[2040,2040,2040],\"kind\":\"leaf\",\"marks\":\"1110\",\"tight\":[[0],[1],[2]]}],\"orders\":[[[3,4]],[[3,4]],[[3,4]]],\"units\":5,\"version\":2}",
        "out-of-range",
    ),
    (
        "{\"capacity\":2,\"loads\":[3,3,18446744073709551615],\"nodes\":[{\"duals\":[2040,2040,2040],\"kind\":\"leaf\",\"marks\":\"1110\",\"tight\":[[0],[1],[2]]}],\"orders\":[[[3,4]],[[3,4]],[[3,4]]],\"units\":5,\"version\":2}",
        "out-of-range",
    ),
    (
        "{\"capacity\":2,\"loads\":[3,3,3],\"nodes\":[{\"duals\":[2040,2040,2040],\"kind\":\"leaf\",\"marks\":\"1110\",\"tight\":[[0],[1],[2]]}],\"orders\":[[[3,4]],[[3,4]],[[3,4]]],\"units\":5,\"version\":1}",
        "out-of-range",
    ),
    (
        "{\"capacity\":2,\"loads\":[3,3,3],\"nodes\":[{\"duals\":[2040,2040,2040],\"kind\":\"leaf\",\"marks\":\"1110\",\"tight\":[[0],[1],[2]]}],\"orders\":[[[3,4]],[[3,4]],[[3,4]]],\"units\":5,\"version\":3}",
        "out-of-range",
    ),
    (
        "{\"capacity\":2,\"nodes\":[{\"duals\":[2040,2040,2040],\"kind\":\"leaf\",\"marks\":\"1110\",\"tight\":[[0],[1],[2]]}],\"orders\":[[[3,4]],[[3,4]],[[3,4]]],\"version\":2}",
        "out-of-range",
    ),
    (
        "{\"capacity\":2,\"loads\":[3,3,3],\"nodes\":[{\"duals\":[2040,2040,2040],\"kind\":\"leaf\",\"marks\":\"1110\",\"tight\":[[0],[1],[2]]}],\"orders\":[[[3,4]],[[3,4]],[[3,4]]],\"version\":2}",
        "bad-shape",
    ),
    (
        "{\"capacity\":2,\"nodes\":[{\"duals\":[2040,2040,2040],\"kind\":\"leaf\",\"marks\":\"1110\",\"tight\":[[0],[1],[2]]}],\"orders\":[[[3,4]],[[3,4]],[[3,4]]],\"units\":5,\"version\":2}",
        "bad-shape",
    ),
    (
        "{\"capacity\":2,\"loads\":[3,3,3],\"nodes\":[{\"duals\":[2040,2040,2040],\"kind\":\"leaf\",\"marks\":\"1110\",\"tight\":[[0],[1],[2]]}],\"orders\":[[[3,4]],[[3,4]],[[3,4]]],\"units\":5,\"version\":2,\"weights\":[]}",
        "bad-shape",
    ),
    (
        "{\"capacity\":2,\"loads\":3,\"nodes\":[{\"duals\":[2040,2040,2040],\"kind\":\"leaf\",\"marks\":\"1110\",\"tight\":[[0],[1],[2]]}],\"orders\":[[[3,4]],[[3,4]],[[3,4]]],\"units\":5,\"version\":2}",
        "bad-shape",
    ),
    (
        "{\"capacity\":2,\"loads\":[3,3,3.0],\"nodes\":[{\"duals\":[2040,2040,2040],\"kind\":\"leaf\",\"marks\":\"1110\",\"tight\":[[0],[1],[2]]}],\"orders\":[[[3,4]],[[3,4]],[[3,4]]],\"units\":5,\"version\":2}",
        "bad-shape",
    ),
    (
        "{\"capacity\":2,\"loads\":[3,3,-1],\"nodes\":[{\"duals\":[2040,2040,2040],\"kind\":\"leaf\",\"marks\":\"1110\",\"tight\":[[0],[1],[2]]}],\"orders\":[[[3,4]],[[3,4]],[[3,4]]],\"units\":5,\"version\":2}",
        "bad-shape",
    ),
    (
        "{\"capacity\":2,\"loads\":[3,3,3],\"nodes\":[{\"duals\":[2040,2040,2040],\"kind\":\"leaf\",\"marks\":\"1110\",\"tight\":[[0],[1],[2]]}],\"orders\":[[[3,4]],[[3,4]],[[3,4]]],\"units\":\"5\",\"version\":2}",
        "bad-shape",
    ),
];

/// Certificates of the third form, and what the check of each says.
const CHECKED: &[(&str, &str)] = &[
    (
        "{\"capacity\":2,\"cuts\":[],\"nodes\":[{\"count\":2040,\"duals\":[0,0,0],\"kind\":\"leaf\",\"marks\":\"1000\",\"prices\":[],\"tight\":[[0],[1],[2]]}],\"orders\":[[[3,4]],[[3,4]],[[3,4]]],\"step\":2,\"version\":3}",
        "bound 68",
    ),
    (
        "{\"capacity\":2,\"cuts\":[{\"divisor\":2,\"orders\":[0,1,2],\"parts\":[1,1,1]}],\"nodes\":[{\"count\":0,\"duals\":[2040,2040,2040],\"kind\":\"leaf\",\"marks\":\"1100100\",\"prices\":[2040],\"tight\":[[0],[0,1],[0,2]]}],\"orders\":[[[3,4]],[[3,4]],[[3,4]]],\"step\":2,\"version\":3}",
        "bound 68",
    ),
    (
        "{\"capacity\":2,\"cuts\":[],\"loads\":[1,1,1],\"nodes\":[{\"count\":2040,\"duals\":[0,0,0],\"kind\":\"leaf\",\"marks\":\"1000\",\"prices\":[],\"tight\":[[0],[1],[2]]}],\"orders\":[[[3,4]],[[3,4]],[[3,4]]],\"step\":2,\"units\":1,\"version\":3}",
        "bound 102",
    ),
    (
        "{\"capacity\":2,\"cuts\":[{\"divisor\":2,\"orders\":[0,1,2],\"parts\":[1,1,1]}],\"nodes\":[{\"count\":0,\"duals\":[2040,2040,2040],\"kind\":\"leaf\",\"marks\":\"1100100\",\"prices\":[2039],\"tight\":[[0],[0,1],[0,2]]}],\"orders\":[[[3,4]],[[3,4]],[[3,4]]],\"step\":2,\"version\":3}",
        "node 0 not-feasible 0 1",
    ),
    (
        "{\"capacity\":2,\"cuts\":[],\"nodes\":[{\"count\":2041,\"duals\":[0,0,0],\"kind\":\"leaf\",\"marks\":\"1000\",\"prices\":[],\"tight\":[[0],[1],[2]]}],\"orders\":[[[3,4]],[[3,4]],[[3,4]]],\"step\":2,\"version\":3}",
        "node 0 not-feasible 0",
    ),
    (
        "{\"capacity\":2,\"cuts\":[],\"nodes\":[{\"count\":1020,\"duals\":[0,0,0],\"kind\":\"leaf\",\"marks\":\"1000\",\"prices\":[],\"tight\":[[0],[1],[2]]}],\"orders\":[[[3,4]],[[3,4]],[[3,4]]],\"step\":2,\"version\":3}",
        "node 0 sum-low",
    ),
    (
        "{\"capacity\":2,\"cuts\":[{\"divisor\":1,\"orders\":[0,1,2],\"parts\":[1,1,1]}],\"nodes\":[{\"count\":0,\"duals\":[2040,2040,2040],\"kind\":\"leaf\",\"marks\":\"1100100\",\"prices\":[2040],\"tight\":[[0],[0,1],[0,2]]}],\"orders\":[[[3,4]],[[3,4]],[[3,4]]],\"step\":2,\"version\":3}",
        "node 0 bad-cuts",
    ),
    (
        "{\"capacity\":2,\"cuts\":[{\"divisor\":9,\"orders\":[0,1,2],\"parts\":[1,1,1]}],\"nodes\":[{\"count\":0,\"duals\":[2040,2040,2040],\"kind\":\"leaf\",\"marks\":\"1100100\",\"prices\":[2040],\"tight\":[[0],[0,1],[0,2]]}],\"orders\":[[[3,4]],[[3,4]],[[3,4]]],\"step\":2,\"version\":3}",
        "node 0 bad-cuts",
    ),
    (
        "{\"capacity\":2,\"cuts\":[{\"divisor\":2,\"orders\":[0,1,2],\"parts\":[1,1,0]}],\"nodes\":[{\"count\":0,\"duals\":[2040,2040,2040],\"kind\":\"leaf\",\"marks\":\"1100100\",\"prices\":[2040],\"tight\":[[0],[0,1],[0,2]]}],\"orders\":[[[3,4]],[[3,4]],[[3,4]]],\"step\":2,\"version\":3}",
        "node 0 bad-cuts",
    ),
    (
        "{\"capacity\":2,\"cuts\":[{\"divisor\":2,\"orders\":[0,1,2],\"parts\":[1,1,2]}],\"nodes\":[{\"count\":0,\"duals\":[2040,2040,2040],\"kind\":\"leaf\",\"marks\":\"1100100\",\"prices\":[2040],\"tight\":[[0],[0,1],[0,2]]}],\"orders\":[[[3,4]],[[3,4]],[[3,4]]],\"step\":2,\"version\":3}",
        "node 0 bad-cuts",
    ),
    (
        "{\"capacity\":2,\"cuts\":[{\"divisor\":2,\"orders\":[0,1,2],\"parts\":[1,1]}],\"nodes\":[{\"count\":0,\"duals\":[2040,2040,2040],\"kind\":\"leaf\",\"marks\":\"1100100\",\"prices\":[2040],\"tight\":[[0],[0,1],[0,2]]}],\"orders\":[[[3,4]],[[3,4]],[[3,4]]],\"step\":2,\"version\":3}",
        "node 0 bad-cuts",
    ),
    (
        "{\"capacity\":2,\"cuts\":[{\"divisor\":2,\"orders\":[0,2,1],\"parts\":[1,1,1]}],\"nodes\":[{\"count\":0,\"duals\":[2040,2040,2040],\"kind\":\"leaf\",\"marks\":\"1100100\",\"prices\":[2040],\"tight\":[[0],[0,1],[0,2]]}],\"orders\":[[[3,4]],[[3,4]],[[3,4]]],\"step\":2,\"version\":3}",
        "node 0 bad-cuts",
    ),
    (
        "{\"capacity\":2,\"cuts\":[{\"divisor\":2,\"orders\":[0,1,3],\"parts\":[1,1,1]}],\"nodes\":[{\"count\":0,\"duals\":[2040,2040,2040],\"kind\":\"leaf\",\"marks\":\"1100100\",\"prices\":[2040],\"tight\":[[0],[0,1],[0,2]]}],\"orders\":[[[3,4]],[[3,4]],[[3,4]]],\"step\":2,\"version\":3}",
        "node 0 bad-cuts",
    ),
    (
        "{\"capacity\":2,\"cuts\":[{\"divisor\":2,\"orders\":[],\"parts\":[1,1,1]}],\"nodes\":[{\"count\":0,\"duals\":[2040,2040,2040],\"kind\":\"leaf\",\"marks\":\"1100100\",\"prices\":[2040],\"tight\":[[0],[0,1],[0,2]]}],\"orders\":[[[3,4]],[[3,4]],[[3,4]]],\"step\":2,\"version\":3}",
        "node 0 bad-cuts",
    ),
    (
        "{\"capacity\":2,\"cuts\":[{\"divisor\":2,\"orders\":[0,1,2],\"parts\":[1,1,1]},{\"divisor\":2,\"orders\":[0,1,2],\"parts\":[1,1,1]},{\"divisor\":2,\"orders\":[0,1,2],\"parts\":[1,1,1]},{\"divisor\":2,\"orders\":[0,1,2],\"parts\":[1,1,1]},{\"divisor\":2,\"orders\":[0,1,2],\"parts\":[1,1,1]},{\"divisor\":2,\"orders\":[0,1,2],\"parts\":[1,1,1]},{\"divisor\":2,\"orders\":[0,1,2],\"parts\":[1,1,1]},{\"divisor\":2,\"orders\":[0,1,2],\"parts\":[1,1,1]},{\"divisor\":2,\"orders\":[0,1,2],\"parts\":[1,1,1]},{\"divisor\":2,\"orders\":[0,1,2],\"parts\":[1,1,1]},{\"divisor\":2,\"orders\":[0,1,2],\"parts\":[1,1,1]},{\"divisor\":2,\"orders\":[0,1,2],\"parts\":[1,1,1]},{\"divisor\":2,\"orders\":[0,1,2],\"parts\":[1,1,1]},{\"divisor\":2,\"orders\":[0,1,2],\"parts\":[1,1,1]},{\"divisor\":2,\"orders\":[0,1,2],\"parts\":[1,1,1]},{\"divisor\":2,\"orders\":[0,1,2],\"parts\":[1,1,1]},{\"divisor\":2,\"orders\":[0,1,2],\"parts\":[1,1,1]},{\"divisor\":2,\"orders\":[0,1,2],\"parts\":[1,1,1]},{\"divisor\":2,\"orders\":[0,1,2],\"parts\":[1,1,1]},{\"divisor\":2,\"orders\":[0,1,2],\"parts\":[1,1,1]},{\"divisor\":2,\"orders\":[0,1,2],\"parts\":[1,1,1]},{\"divisor\":2,\"orders\":[0,1,2],\"parts\":[1,1,1]},{\"divisor\":2,\"orders\":[0,1,2],\"parts\":[1,1,1]},{\"divisor\":2,\"orders\":[0,1,2],\"parts\":[1,1,1]},{\"divisor\":2,\"orders\":[0,1,2],\"parts\":[1,1,1]},{\"divisor\":2,\"orders\":[0,1,2],\"parts\":[1,1,1]},{\"divisor\":2,\"orders\":[0,1,2],\"parts\":[1,1,1]},{\"divisor\":2,\"orders\":[0,1,2],\"parts\":[1,1,1]},{\"divisor\":2,\"orders\":[0,1,2],\"parts\":[1,1,1]},{\"divisor\":2,\"orders\":[0,1,2],\"parts\":[1,1,1]},{\"divisor\":2,\"orders\":[0,1,2],\"parts\":[1,1,1]},{\"divisor\":2,\"orders\":[0,1,2],\"parts\":[1,1,1]},{\"divisor\":2,\"orders\":[0,1,2],\"parts\":[1,1,1]},{\"divisor\":2,\"orders\":[0,1,2],\"parts\":[1,1,1]},{\"divisor\":2,\"orders\":[0,1,2],\"parts\":[1,1,1]},{\"divisor\":2,\"orders\":[0,1,2],\"parts\":[1,1,1]},{\"divisor\":2,\"orders\":[0,1,2],\"parts\":[1,1,1]},{\"divisor\":2,\"orders\":[0,1,2],\"parts\":[1,1,1]},{\"divisor\":2,\"orders\":[0,1,2],\"parts\":[1,1,1]},{\"divisor\":2,\"orders\":[0,1,2],\"parts\":[1,1,1]},{\"divisor\":2,\"orders\":[0,1,2],\"parts\":[1,1,1]},{\"divisor\":2,\"orders\":[0,1,2],\"parts\":[1,1,1]},{\"divisor\":2,\"orders\":[0,1,2],\"parts\":[1,1,1]},{\"divisor\":2,\"orders\":[0,1,2],\"parts\":[1,1,1]},{\"divisor\":2,\"orders\":[0,1,2],\"parts\":[1,1,1]},{\"divisor\":2,\"orders\":[0,1,2],\"parts\":[1,1,1]},{\"divisor\":2,\"orders\":[0,1,2],\"parts\":[1,1,1]},{\"divisor\":2,\"orders\":[0,1,2],\"parts\":[1,1,1]},{\"divisor\":2,\"orders\":[0,1,2],\"parts\":[1,1,1]},{\"divisor\":2,\"orders\":[0,1,2],\"parts\":[1,1,1]},{\"divisor\":2,\"orders\":[0,1,2],\"parts\":[1,1,1]},{\"divisor\":2,\"orders\":[0,1,2],\"parts\":[1,1,1]},{\"divisor\":2,\"orders\":[0,1,2],\"parts\":[1,1,1]},{\"divisor\":2,\"orders\":[0,1,2],\"parts\":[1,1,1]},{\"divisor\":2,\"orders\":[0,1,2],\"parts\":[1,1,1]},{\"divisor\":2,\"orders\":[0,1,2],\"parts\":[1,1,1]},{\"divisor\":2,\"orders\":[0,1,2],\"parts\":[1,1,1]},{\"divisor\":2,\"orders\":[0,1,2],\"parts\":[1,1,1]},{\"divisor\":2,\"orders\":[0,1,2],\"parts\":[1,1,1]},{\"divisor\":2,\"orders\":[0,1,2],\"parts\":[1,1,1]},{\"divisor\":2,\"orders\":[0,1,2],\"parts\":[1,1,1]},{\"divisor\":2,\"orders\":[0,1,2],\"parts\":[1,1,1]},{\"divisor\":2,\"orders\":[0,1,2],\"parts\":[1,1,1]},{\"divisor\":2,\"orders\":[0,1,2],\"parts\":[1,1,1]},{\"divisor\":2,\"orders\":[0,1,2],\"parts\":[1,1,1]}],\"nodes\":[{\"count\":0,\"duals\":[2040,2040,2040],\"kind\":\"leaf\",\"marks\":\"1100100\",\"prices\":[2040],\"tight\":[[0],[0,1],[0,2]]}],\"orders\":[[[3,4]],[[3,4]],[[3,4]]],\"step\":2,\"version\":3}",
        "node 0 bad-cuts",
    ),
    (
        "{\"capacity\":2,\"cuts\":[{\"divisor\":2,\"orders\":[0,1,2],\"parts\":[1,1,1]}],\"nodes\":[{\"count\":0,\"duals\":[2040,2040,2040],\"kind\":\"leaf\",\"marks\":\"1100100\",\"prices\":[],\"tight\":[[0],[0,1],[0,2]]}],\"orders\":[[[3,4]],[[3,4]],[[3,4]]],\"step\":2,\"version\":3}",
        "node 0 duals-length",
    ),
    (
        "{\"capacity\":2,\"cuts\":[{\"divisor\":2,\"orders\":[0,1,2],\"parts\":[1,1,1]}],\"nodes\":[{\"count\":0,\"duals\":[2040,2040,2040],\"kind\":\"leaf\",\"marks\":\"1100100\",\"prices\":[2040,0],\"tight\":[[0],[0,1],[0,2]]}],\"orders\":[[[3,4]],[[3,4]],[[3,4]]],\"step\":2,\"version\":3}",
        "node 0 duals-length",
    ),
    (
        "{\"capacity\":2,\"cuts\":[],\"nodes\":[{\"count\":2040,\"duals\":[0],\"kind\":\"leaf\",\"marks\":\"1\",\"prices\":[],\"tight\":[[0]]}],\"orders\":[[[3,4]]],\"step\":2,\"version\":3}",
        "node 0 decided-prices",
    ),
    (
        "{\"capacity\":2,\"cuts\":[],\"nodes\":[{\"count\":0,\"duals\":[2040],\"kind\":\"leaf\",\"marks\":\"10\",\"prices\":[],\"tight\":[[0]]}],\"orders\":[[[3,4]]],\"step\":2,\"version\":3}",
        "bound 34",
    ),
    (
        "{\"capacity\":2,\"cuts\":[{\"divisor\":2,\"orders\":[0,1,2],\"parts\":[1,1,1]},{\"divisor\":2,\"orders\":[0,1,2],\"parts\":[1,1,1]},{\"divisor\":2,\"orders\":[0,1,2],\"parts\":[1,1,1]},{\"divisor\":2,\"orders\":[0,1,2],\"parts\":[1,1,1]},{\"divisor\":2,\"orders\":[0,1,2],\"parts\":[1,1,1]},{\"divisor\":2,\"orders\":[0,1,2],\"parts\":[1,1,1]},{\"divisor\":2,\"orders\":[0,1,2],\"parts\":[1,1,1]},{\"divisor\":2,\"orders\":[0,1,2],\"parts\":[1,1,1]},{\"divisor\":2,\"orders\":[0,1,2],\"parts\":[1,1,1]},{\"divisor\":2,\"orders\":[0,1,2],\"parts\":[1,1,1]},{\"divisor\":2,\"orders\":[0,1,2],\"parts\":[1,1,1]},{\"divisor\":2,\"orders\":[0,1,2],\"parts\":[1,1,1]},{\"divisor\":2,\"orders\":[0,1,2],\"parts\":[1,1,1]},{\"divisor\":2,\"orders\":[0,1,2],\"parts\":[1,1,1]},{\"divisor\":2,\"orders\":[0,1,2],\"parts\":[1,1,1]},{\"divisor\":2,\"orders\":[0,1,2],\"parts\":[1,1,1]},{\"divisor\":2,\"orders\":[0,1,2],\"parts\":[1,1,1]},{\"divisor\":2,\"orders\":[0,1,2],\"parts\":[1,1,1]},{\"divisor\":2,\"orders\":[0,1,2],\"parts\":[1,1,1]},{\"divisor\":2,\"orders\":[0,1,2],\"parts\":[1,1,1]},{\"divisor\":2,\"orders\":[0,1,2],\"parts\":[1,1,1]},{\"divisor\":2,\"orders\":[0,1,2],\"parts\":[1,1,1]},{\"divisor\":2,\"orders\":[0,1,2],\"parts\":[1,1,1]},{\"divisor\":2,\"orders\":[0,1,2],\"parts\":[1,1,1]},{\"divisor\":2,\"orders\":[0,1,2],\"parts\":[1,1,1]},{\"divisor\":2,\"orders\":[0,1,2],\"parts\":[1,1,1]},{\"divisor\":2,\"orders\":[0,1,2],\"parts\":[1,1,1]},{\"divisor\":2,\"orders\":[0,1,2],\"parts\":[1,1,1]},{\"divisor\":2,\"orders\":[0,1,2],\"parts\":[1,1,1]},{\"divisor\":2,\"orders\":[0,1,2],\"parts\":[1,1,1]},{\"divisor\":2,\"orders\":[0,1,2],\"parts\":[1,1,1]},{\"divisor\":2,\"orders\":[0,1,2],\"parts\":[1,1,1]},{\"divisor\":2,\"orders\":[0,1,2],\"parts\":[1,1,1]},{\"divisor\":2,\"orders\":[0,1,2],\"parts\":[1,1,1]},{\"divisor\":2,\"orders\":[0,1,2],\"parts\":[1,1,1]},{\"divisor\":2,\"orders\":[0,1,2],\"parts\":[1,1,1]},{\"divisor\":2,\"orders\":[0,1,2],\"parts\":[1,1,1]},{\"divisor\":2,\"orders\":[0,1,2],\"parts\":[1,1,1]},{\"divisor\":2,\"orders\":[0,1,2],\"parts\":[1,1,1]},{\"divisor\":2,\"orders\":[0,1,2],\"parts\":[1,1,1]},{\"divisor\":2,\"orders\":[0,1,2],\"parts\":[1,1,1]},{\"divisor\":2,\"orders\":[0,1,2],\"parts\":[1,1,1]},{\"divisor\":2,\"orders\":[0,1,2],\"parts\":[1,1,1]},{\"divisor\":2,\"orders\":[0,1,2],\"parts\":[1,1,1]},{\"divisor\":2,\"orders\":[0,1,2],\"parts\":[1,1,1]},{\"divisor\":2,\"orders\":[0,1,2],\"parts\":[1,1,1]},{\"divisor\":2,\"orders\":[0,1,2],\"parts\":[1,1,1]},{\"divisor\":2,\"orders\":[0,1,2],\"parts\":[1,1,1]},{\"divisor\":2,\"orders\":[0,1,2],\"parts\":[1,1,1]},{\"divisor\":2,\"orders\":[0,1,2],\"parts\":[1,1,1]},{\"divisor\":2,\"orders\":[0,1,2],\"parts\":[1,1,1]},{\"divisor\":2,\"orders\":[0,1,2],\"parts\":[1,1,1]},{\"divisor\":2,\"orders\":[0,1,2],\"parts\":[1,1,1]},{\"divisor\":2,\"orders\":[0,1,2],\"parts\":[1,1,1]},{\"divisor\":2,\"orders\":[0,1,2],\"parts\":[1,1,1]},{\"divisor\":2,\"orders\":[0,1,2],\"parts\":[1,1,1]},{\"divisor\":2,\"orders\":[0,1,2],\"parts\":[1,1,1]},{\"divisor\":2,\"orders\":[0,1,2],\"parts\":[1,1,1]},{\"divisor\":2,\"orders\":[0,1,2],\"parts\":[1,1,1]},{\"divisor\":2,\"orders\":[0,1,2],\"parts\":[1,1,1]},{\"divisor\":2,\"orders\":[0,1,2],\"parts\":[1,1,1]},{\"divisor\":2,\"orders\":[0,1,2],\"parts\":[1,1,1]},{\"divisor\":2,\"orders\":[0,1,2],\"parts\":[1,1,1]},{\"divisor\":2,\"orders\":[0,1,2],\"parts\":[1,1,1]}],\"nodes\":[{\"count\":0,\"duals\":[2040,2040,2040],\"kind\":\"leaf\",\"marks\":\"1100100\",\"prices\":[2040,0,0,0,0,0,0,0,0,0,0,0,0,0,0,0,0,0,0,0,0,0,0,0,0,0,0,0,0,0,0,0,0,0,0,0,0,0,0,0,0,0,0,0,0,0,0,0,0,0,0,0,0,0,0,0,0,0,0,0,0,0,0,0],\"tight\":[[0],[0,1],[0,2]]}],\"orders\":[[[3,4]],[[3,4]],[[3,4]]],\"step\":2,\"version\":3}",
        "bound 68",
    ),
    (
        "{\"capacity\":2,\"cuts\":[],\"nodes\":[{\"count\":0,\"duals\":[1020,1020,1020],\"first\":0,\"kind\":\"split\",\"marks\":\"1000\",\"prices\":[],\"second\":1,\"tight\":[[0,1],[0,1],[0,2]]},{\"count\":1020,\"duals\":[510,510,1020],\"kind\":\"leaf\",\"marks\":\"100\",\"prices\":[],\"tight\":[[0,1],[0,1],[2]]},{\"count\":2040,\"duals\":[0,0,0],\"kind\":\"leaf\",\"marks\":\"1000\",\"prices\":[],\"tight\":[[0],[1],[2]]}],\"orders\":[[[3,4]],[[3,4]],[[3,4]]],\"step\":2,\"version\":3}",
        "bound 68",
    ),
    (
        "{\"capacity\":2,\"cuts\":[],\"nodes\":[{\"count\":0,\"duals\":[1020,1020,1020],\"first\":0,\"kind\":\"split\",\"marks\":\"1000\",\"prices\":[],\"second\":1,\"tight\":[[0,1],[0,1],[0,2]]},{\"count\":1020,\"duals\":[510,510,1020],\"kind\":\"leaf\",\"marks\":\"100\",\"prices\":[],\"tight\":[[0,1],[0,1],[2]]},{\"count\":1019,\"duals\":[1020,0,0],\"kind\":\"leaf\",\"marks\":\"1100\",\"prices\":[],\"tight\":[[0],[0],[0]]}],\"orders\":[[[3,4]],[[3,4]],[[3,4]]],\"step\":2,\"version\":3}",
        "node 2 sum-low",
    ),
    (
        "{\"capacity\":2,\"cuts\":[{\"divisor\":2,\"orders\":[0,1,2],\"parts\":[1,1,1]}],\"nodes\":[{\"count\":0,\"duals\":[2040,2040,2040],\"kind\":\"leaf\",\"marks\":\"1000\",\"prices\":[2040],\"tight\":[[0],[0,1],[0,2]]}],\"orders\":[[[3,4]],[[3,4]],[[3,4]]],\"step\":2,\"version\":3}",
        "node 0 bad-marks",
    ),
    (
        "{\"capacity\":2,\"cuts\":[{\"divisor\":1,\"orders\":[0,1,2],\"parts\":[1,1,1]}],\"nodes\":[],\"orders\":[[[3,4]],[[3,4]],[[3,4]]],\"step\":2,\"version\":3}",
        "node 0 bad-cuts",
    ),
];

fn small() -> Option<Layout> {
    Layout::new(3, 4, 2, 1, 5, 1)
}

/// Whether the certificate that a text says is printed as another.
fn is_printed_as(alloc: Global, text: &str, printed: &str) -> Result<bool, Memory> {
    let Some(layout) = small() else {
        return Ok(false);
    };
    match read_certificate(alloc, &text.as_bytes().to_vec(alloc)?, &layout) {
        Ok(read) => {
            let again = print_certificate(alloc, &read.wave, read.capacity, &read.tree)?;
            Ok(again.as_slice() == printed.as_bytes())
        }
        Err(_) => Ok(false),
    }
}

/// The first certificate that isn't printed as it is.
fn misprinted(alloc: Global) -> Result<Option<&'static str>, Memory> {
    for text in PRINTED {
        if !is_printed_as(alloc, *text, *text)? {
            return Ok(Some(*text));
        }
    }
    Ok(None)
}

#[test]
fn certificates_are_read_and_printed_as_they_are(rt: HostRuntime) {
    assert_eq!(rt; misprinted(rt.alloc()), Ok(None));
}

/// The first text whose certificate is printed otherwise.
fn printed_wrongly(alloc: Global) -> Result<Option<&'static str>, Memory> {
    for (text, printed) in PRINTED_OTHERWISE {
        if !is_printed_as(alloc, *text, *printed)? {
            return Ok(Some(*text));
        }
    }
    Ok(None)
}

#[test]
fn certificates_are_printed_in_one_form(rt: HostRuntime) {
    assert_eq!(rt; printed_wrongly(rt.alloc()), Ok(None));
}

/// Whether a text's certificate is refused so.
fn is_refused_as(alloc: Global, text: &str, told: &str) -> Result<bool, Memory> {
    let Some(layout) = small() else {
        return Ok(false);
    };
    match read_certificate(alloc, &text.as_bytes().to_vec(alloc)?, &layout) {
        Ok(_) => Ok(false),
        Err(fault) => Ok(format!(in alloc; "{fault}")?.as_str() == told),
    }
}

/// The first text whose certificate isn't refused so.
fn refused_wrongly(alloc: Global) -> Result<Option<&'static str>, Memory> {
    for (text, told) in REFUSED {
        if !is_refused_as(alloc, *text, *told)? {
            return Ok(Some(*text));
        }
    }
    Ok(None)
}

#[test]
fn certificates_with_carts_are_refused(rt: HostRuntime) {
    assert_eq!(rt; refused_wrongly(rt.alloc()), Ok(None));
}

/// Whether this is said of a text's certificate: its bound, or why it is refused.
fn is_checked_as(alloc: Global, text: &str, told: &str) -> Result<bool, Memory> {
    let Some(layout) = small() else {
        return Ok(false);
    };
    let read = match read_certificate(alloc, &text.as_bytes().to_vec(alloc)?, &layout) {
        Ok(read) => read,
        Err(_) => return Ok(false),
    };
    match check(alloc, &read.wave, read.capacity, &read.tree) {
        Ok(bound) => Ok(format!(in alloc; "bound {bound}")?.as_str() == told),
        Err(fault) => Ok(format!(in alloc; "{fault}")?.as_str() == told),
    }
}

/// The first text of whose certificate something else is said.
fn checked_wrongly(alloc: Global) -> Result<Option<&'static str>, Memory> {
    for (text, told) in CHECKED {
        if !is_checked_as(alloc, *text, *told)? {
            return Ok(Some(*text));
        }
    }
    Ok(None)
}

#[test]
fn certificates_with_prices_are_checked(rt: HostRuntime) {
    assert_eq!(rt; checked_wrongly(rt.alloc()), Ok(None));
}
