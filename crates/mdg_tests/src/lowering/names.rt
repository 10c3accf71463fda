// A name of a body is a local, or a cell where an inner function uses it. A name that nothing binds is a global.
pub const NAMES: (&str, &str) = (
    "\
'use strict';
var a = 1, b;
b = a;
function f() { return a; }
a = b;
undefined; NaN; Infinity; null; true; 'x'; 12; 1.5; 0x10; __filename;
",
    "\
0 at 1:0 l4 = object
1 at 1:0 l5 = object
2 at 1:0 l4.exports = l5
3 at 1:0 cell 0 = l4
4 at 1:0 l0 = l4
5 at 1:0 l1 = l5
6 at 4:35 l4 = function 1
7 at 4:35 l3 = l4
8 at 2:22 l4 = literal 1
9 at 2:14 cell 1 = l4
10 at 3:32 l4 = cell 1
11 at 3:28 l2 = l4
12 at 5:66 l4 = l2
13 at 5:62 cell 1 = l4
14 at 6:69 l4 = literal undefined
15 at 6:80 l4 = literal NaN
16 at 6:85 l4 = literal Infinity
17 at 6:95 l4 = literal null
18 at 6:101 l4 = literal true
19 at 6:107 l4 = literal x
20 at 6:112 l4 = literal 12
21 at 6:116 l4 = literal -
22 at 6:121 l4 = literal -
23 at 6:127 l4 = shared 0
24 at 1:0 l4 = literal undefined
25 at 1:0 return l4
26 at 4:57 l0 = cell 1
27 at 4:50 return l0
28 at 4:35 l0 = literal undefined
29 at 4:35 return l0
function 0 in - at 1:0 sites 0..25 locals 6 -
function 1 in 0 at 4:35 sites 26..29 locals 1 f
cells of 0 0
file 0 index.js body 0 module cell 0
shared 0 global __filename quiet of 0
",
);

// A captured parameter is copied to its cell where the function begins, as is the module object.
pub const CAPTURED: (&str, &str) = (
    "\
'use strict';
exports.f = function (a, b, c) {
  var d = 1, e;
  function g() { return a + c + e; }
  return function () { return g() + d; };
};
(function () { return module; })();
",
    "\
0 at 1:0 l1 = object
1 at 1:0 l2 = object
2 at 1:0 l1.exports = l2
3 at 1:0 cell 0 = l1
4 at 1:0 cell 1 = l1
5 at 1:0 l0 = l2
6 at 2:26 l1 = function 1
7 at 2:14 l0.f = l1
8 at 7:146 l1 = function 4
9 at 7:145 l1 = call l1 with
10 at 7:145 land
11 at 1:0 l1 = literal undefined
12 at 1:0 return l1
13 at 2:26 cell 2 = l0
14 at 2:26 cell 3 = l2
15 at 4:65 l3 = function 2
16 at 4:65 cell 6 = l3
17 at 3:57 l3 = literal 1
18 at 3:49 cell 4 = l3
19 at 5:109 l3 = function 3
20 at 5:102 return l3
21 at 2:26 l3 = literal undefined
22 at 2:26 return l3
23 at 4:87 l0 = cell 2
24 at 4:91 l1 = cell 3
25 at 4:87 l0 = op l0 l1
26 at 4:95 l1 = cell 5
27 at 4:87 l0 = op l0 l1
28 at 4:80 return l0
29 at 4:65 l0 = literal undefined
30 at 4:65 return l0
31 at 5:130 l0 = cell 6
32 at 5:130 l0 = call l0 with
33 at 5:130 land
34 at 5:136 l1 = cell 4
35 at 5:130 l0 = op l0 l1
36 at 5:123 return l0
37 at 5:109 l0 = literal undefined
38 at 5:109 return l0
39 at 7:167 l0 = cell 1
40 at 7:160 return l0
41 at 7:146 l0 = literal undefined
42 at 7:146 return l0
function 0 in - at 1:0 sites 0..12 locals 3 -
function 1 in 0 at 2:26 sites 13..22 locals 4 - a b c
function 2 in 1 at 4:65 sites 23..30 locals 2 g
function 3 in 1 at 5:109 sites 31..38 locals 2 -
function 4 in 0 at 7:146 sites 39..42 locals 1 -
cells of 0 0 1 1 1 1 1
file 0 index.js body 0 module cell 0
",
);

// The own name of a function is a local that holds it, and to assign it throws.
pub const OWN_NAME: (&str, &str) = (
    "\
'use strict';
module.exports = f;
function f(a, b) { return function h(d) { if (d) return h(d - 1); b = d; }; }
(function own() { own = 1; })();
(function unused(x) { return x; })();
",
    "\
0 at 1:0 l3 = object
1 at 1:0 l4 = object
2 at 1:0 l3.exports = l4
3 at 1:0 cell 0 = l3
4 at 1:0 l0 = l3
5 at 1:0 l1 = l4
6 at 3:34 l3 = function 1
7 at 3:34 l2 = l3
8 at 2:31 l3 = l2
9 at 2:14 l0.exports = l3
10 at 4:113 l3 = function 3
11 at 4:112 l3 = call l3 with
12 at 4:112 land
13 at 5:146 l3 = function 4
14 at 5:145 l3 = call l3 with
15 at 5:145 land
16 at 1:0 l3 = literal undefined
17 at 1:0 return l3
18 at 3:34 cell 1 = l1
19 at 3:60 l2 = function 2
20 at 3:53 return l2
21 at 3:34 l2 = literal undefined
22 at 3:34 return l2
23 at 3:60 l2 = own
24 at 3:60 l1 = l2
25 at 3:80 l2 = l0
26 at 3:76 branch 27 34
27 at 3:90 l2 = l1
28 at 3:92 l3 = l0
29 at 3:96 l4 = literal 1
30 at 3:92 l3 = op l3 l4
31 at 3:90 l2 = call l2 with l3
32 at 3:90 land
33 at 3:83 return l2
34 at 3:104 l2 = l0
35 at 3:100 cell 1 = l2
36 at 3:60 l2 = literal undefined
37 at 3:60 return l2
38 at 4:113 l1 = own
39 at 4:113 l0 = l1
40 at 4:136 l1 = literal 1
41 at 4:130 throw l1
42 at 4:113 l1 = literal undefined
43 at 4:113 return l1
44 at 5:174 l2 = l0
45 at 5:167 return l2
46 at 5:146 l2 = literal undefined
47 at 5:146 return l2
function 0 in - at 1:0 sites 0..17 locals 5 -
function 1 in 0 at 3:34 sites 18..22 locals 3 f a b
function 2 in 1 at 3:60 sites 23..37 locals 5 h d
function 3 in 0 at 4:113 sites 38..43 locals 2 own
function 4 in 0 at 5:146 sites 44..47 locals 3 unused x
cells of 0 1
file 0 index.js body 0 module cell 0
",
);
