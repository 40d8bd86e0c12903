//! The words of findings, the summary of each, and its explanation: the paragraph of ti-findings(7) on it.
//! docs/explanations.py makes this file.

/// For each word a line with its summary, and indented lines.
pub const EXPLANATIONS: &str = "\
malformed: the string is no valid capability
  The string is no valid capability; the reason follows, a fault of
  ti-faults(7), and its own remedy. Programs refuse the string, or send a part
  of it.
stack-underflow: on some path a token pops more values than there are, and programs differ in what they take then
  On some path a token pops more values than there are, and programs differ in
  what they take then. setf of wy350 pushes nothing for a color above 7. Push
  a value in an otherwise part.
termcap-parameter: a token pops more values than there are, and the string has no %p
  A token pops more values than there are, and the string has no %p: it is
  written for termcap, whose parameters need no push. tsl of ibm8514 loses the
  column, and sends the space of %+; it means %p1%' '%+%c.
stack-residue: on some path no token pops the value that this one pushes
  On some path no token pops the value that this one pushes, such as the sum
  in tsl of ibm8514. Print the value, or leave it out.
parameter-range: the string has fewer parameters by terminfo(5) than this
  The string has fewer parameters by terminfo(5) than this. In mrcup of
  ncr160vppp %p3 is 0 in ncurses, so the byte that it writes is always the
  same. When it is reported, the parameter-unused and same-output that follow
  from it are not.
parameter-unused: no path pushes a parameter that the string has
  No path pushes a parameter that the string has. With vpa of apollo the
  cursor goes to one line, whatever the parameter is. Attributes that sgr
  lacks are no mistake. With --all: the string is tsl: the status line starts
  at its first column, whatever the parameter is.
%i-repeated: on some path another %i comes before this one
  On some path another %i comes before this one, as in csr of vt100-s. ncurses
  adds 1 only once; leave out the second, and write %{1}%+ after a parameter
  that should be greater by 1.
%i-unused: no path pushes %p1 or %p2 after it
  No path pushes %p1 or %p2 after it, as in tsl of z29a, which means %i%p1%d.
%i-late: on some path one of %p1 and %p2 comes before it, and one after it, so that one counts from 0 and one from 1
  On some path one of %p1 and %p2 comes before it, and one after it, so that
  one counts from 0 and one from 1: %p1%d;%i%p2%d. Write %i first.
unset-variable: on some path no token stores into the variable before
  On some path no token stores into the variable before. A small letter starts
  anew with each string: after setf of qnx the other color is 0. Write capital
  letters, which are kept. A capital letter is reported if no string of the
  entry stores into it.
dead-store: no path pushes the small letter after it
  No path pushes the small letter after it, as in %p1%Pa. Leave it out.
operand-type: a token takes a number, and on each path the value is a string, or the other way round
  A token takes a number, and on each path the value is a string, or the other
  way round: %p2%d in pfkey, whose second parameter is a string, and %p1%s in
  cup. Programs write 0 or nothing, or read memory that is no string. Write
  the other conversion.
no-effect: all bodies of the conditional are empty, and its tests write and store nothing
  All bodies of the conditional are empty, and its tests write and store
  nothing, as in %?%p1%t%;. Leave it out, or write what was meant.
constant-condition: the test has constants alone
  The test has constants alone, as in %?%{1}%t, and always goes the same way.
  Each test is reported by itself, with its number; if that is 0, no program
  sends the part after it. Write what the test should compare with, or leave
  out the test and the part that is never sent.
repeated-condition: the test after it is the test of an earlier arm
  The test after it is the test of an earlier arm, as in %?%p1%t..%e%p1%t..%;.
  Unless a test between the two stores in a variable that the test reads, no
  program sends the arm. Write the test that was meant, or leave out the arm.
empty-output: for a value the string sends nothing but delays
  For a value the string sends nothing but delays, such as setb of wy350.
same-output: for two values it sends the same
  For two values it sends the same. setf of gs6300 sends \\E[?2m for the colors
  1 and 3, so one of them is missing.
negative-number: for a value it writes a number below 0 in decimal, which no terminal reads
  For a value it writes a number below 0 in decimal, which no terminal reads.
  Subtract in the %e of a test, as setaf of xterm-256color does. It hides
  control-sequence of the same string, if the minus is what that reports.
sgr-attribute-ignored: sgr sends the same with an attribute as without it, though the entry has the string that starts it
  sgr sends the same with an attribute as without it, though the entry has the
  string that starts it. smso is in aaa+rv, and %p1 does nothing.
sgr-attribute-differs: sgr and the string that starts an attribute differ
  sgr and the string that starts an attribute differ: sgr lacks a parameter of
  the string's \\E[...m, or a shift to another set of characters. smso of d410
  has a 7, and sgr sends \\E[2;72;m. It is reported only if both have nothing
  else.
sgr-combination: for a set of attributes the \\E[...m of sgr lacks a parameter that one of them alone adds
  For a set of attributes the \\E[...m of sgr lacks a parameter that one of
  them alone adds. ofcons has \\2330;18m for bold and invisible, in place of 1
  and 8.
sgr-text: sgr sends a character that is in no sequence and shows on the screen
  sgr sends a character that is in no sequence and shows on the screen, such
  as the letter B in xterm-bold, though for no attribute it sends an \\E[...m.
control-sequence: what follows \\E[ is not a complete ECMA-48 sequence, so the terminal takes the next characters sent as its end
  What follows \\E[ is not a complete ECMA-48 sequence, so the terminal takes
  the next characters sent as its end. csr of ampex219 fills its lines with
  spaces: write %d or %02d. It is reported of strings that are sent as they
  stand too, such as is2 of vt220, and only if cup has the form of ECMA-48.
origin-differs: for 0 home, vpa, hpa or csr sends another number than cup, so that one counts from 0 and one from 1
  For 0 home, vpa, hpa or csr sends another number than cup, so that one
  counts from 0 and one from 1. cup of ncr260vt300an sends \\E[1;1H, and vpa
  \\E[0d: it lacks %i. A number that is left out is 1, so cup of ibmpcx differs
  from its home, \\E[H. It is reported only if each sends one \\E[ with nothing
  but numbers.
uninterpreted-escape: a string that is sent as it stands has an escape that only an expansion carries out
  A string that is sent as it stands has an escape that only an expansion
  carries out, such as op of d220. The terminal gets all of it.
uninterpreted-percent: a string that is sent as it stands, or one that a key sends, has two percent signs
  A string that is sent as it stands, or one that a key sends, has two percent
  signs. rmacs of f110 sends both, and programs wait for both in kf50 of d200,
  where the key sends one. Write one.
padding-malformed: in a string that is sent as it stands $< starts no delay
  In a string that is sent as it stands $< starts no delay, such as $<5, and
  so is sent.
long-delay: a delay is longer than a second for each affected line
  A delay is longer than a second for each affected line, such as $<5000/> in
  cud1 of basis, or the delays of a string are longer than two seconds
  together. Programs wait as long.
padding-in-key: the string of a key has a delay
  The string of a key has a delay, such as kdl1 of tvi921: programs wait for
  its bytes, which no key sends. Leave it out.
acsc-odd: the list of pairs of the alternate character set has an odd count of bytes, so its last line character is lost
  The list of pairs of the alternate character set has an odd count of bytes,
  so its last line character is lost.
pair-equal: two strings of which one should undo the other are the same, and not empty
  Two strings of which one should undo the other are the same, and not empty:
  sc and rc of ibcs2. With --all: the strings start and end a mode, such as
  smso and rmso of aj510. It is right if the terminal toggles the mode.
key-empty: the string of a key is empty
  The string of a key is empty, such as kund of xterm-kitty, and no key sends
  nothing. Write what the key sends, or leave it out.
key-prefix: one key sends the first part of what another sends
  One key sends the first part of what another sends. After kcbt of att4426,
  which is \\EO, a program has to wait, since kf1 is \\EOP. If the terminal does
  send both, leave out the shorter one, unless it is needed.
name-repeated: the entry has a user-defined name twice, or it is a name of terminfo(5)
  The entry has a user-defined name twice, or it is a name of terminfo(5).
  Programs find only one of the two. Leave one out.
names-control: the names of the entry have a control character or bytes that are no UTF-8, which a terminal that lists them obeys
  The names of the entry have a control character or bytes that are no UTF-8,
  which a terminal that lists them obeys. User-defined names are looked at
  too. Names that are wrong in another way are names-odd.
names-odd: an alias is empty or has a space or a slash, so that no file has its name
  An alias is empty or has a space or a slash, so that no file has its name;
  or the names are longer than 512 bytes. The last of several names describes
  the terminal and is no alias. Up to version 0.3 these were names-control.
alias-repeated: the entry has an alias twice
  The entry has an alias twice. Leave one out.
runs: the entry has iprog
  The entry has iprog. tput init, tset(1) and reset run it as a command, with
  your rights, whatever it is.
reads: if or rf names a file that is not below /usr/share/tabset, or one with .. in its name
  if or rf names a file that is not below /usr/share/tabset, or one with .. in
  its name. tput init, tset(1) and reset send the file to the terminal.
size: lines times columns are above a million, or colors or pairs above 16777216, and programs need memory for each
  lines times columns are above a million, or colors or pairs above 16777216,
  and programs need memory for each.
crash: a division ends the program that expands the string, with SIGFPE
  A division ends the program that expands the string, with SIGFPE. Neovim
  ends at a division by 0, by unibilium 2.1; so it does if a parameter that
  may be 0 is pushed right before %/ or %m. tput(1), less(1), nano(1) and
  others by ncurses 6.4 end at -2147483648 divided by -1, and so does Neovim.
  Only numbers count that constants and operations alone leave.
answer: the terminal types an answer, which the shell reads as if you had typed it, on a request for its state, ENQ, or \\EZ
  The terminal types an answer, which the shell reads as if you had typed it,
  on a request for its state, ENQ, or \\EZ. Allowed in u7, u9, RV and XR.
reports: the terminal types reports from then on, of the mouse, the focus or pastes
  The terminal types reports from then on, of the mouse, the focus or pastes;
  or its keyboard is locked. Allowed in XM, BE, fe, Enfcs, Enbp and Eneks; a
  lock in is1 to rs3.
title: the terminal sets the title of its window
  The terminal sets the title of its window. Allowed in tsl, fsl, dsl and TS;
  the stack of titles also in smcup and rmcup.
clipboard: the terminal writes the clipboard (OSC 52)
  The terminal writes the clipboard (OSC 52). Allowed in Ms, if the data are
  its second parameter alone.
print: the terminal prints
  The terminal prints. Allowed in mc0, mc4, mc5 and mc5p; its end also in is1
  to rs3.
palette: the terminal changes its colors
  The terminal changes its colors. Allowed in initc, initp, oc, Cs, Cr, and
  is1 to rs3.
window: the terminal moves, resizes or hides its window
  The terminal moves, resizes or hides its window. Allowed in WS, and is1 to
  rs3.
reset: the terminal resets itself
  The terminal resets itself, as in clear of hurd. Allowed in is1 to rs3, and
  a soft reset in smcup and rmcup.
other-control: the terminal shows a notification, a link or a picture, or does what a device control string says
  The terminal shows a notification, a link or a picture, or does what a
  device control string says. Allowed in Swd and Hls; a device control string
  in smkx, rmkx, smcup, rmcup, smsc, rmsc, tsl, fsl, dsl, Sync, and is1 to
  rs3; and in pfkey, pfloc, pfx, pfxl and pln, if a key gets the second
  parameter alone.
unknown-function: the string can send a function that it is not known to need
  The string can send a function that it is not known to need: it is not in
  the table for it, and no effect of it is known either. With --untrusted
  alone. Leave it out, or send it in a string that is for it.
computed-byte: a byte is computed
  A byte is computed, as by %p1%{1}%+%c, and its value is not known, so that
  nothing is known of what the terminal does. With --untrusted alone. Write
  the byte itself.
string-open: the string can end within a function, so that the terminal takes what follows for a part of it
  The string can end within a function, so that the terminal takes what
  follows for a part of it. Add fsl after tsl, TS and Swd; elsewhere write the
  end, or leave it out.
string-cut: an escape cuts a string off
  An escape cuts a string off, as in \\E]2;x\\E[K: some terminals start anew
  there, and on others the string goes on. With --untrusted alone. End the
  string before it.
not-ecma: the strings of an entry that comes from a stranger are not those of ECMA-48, for which the table is, and more than one thing is found in them
  The strings of an entry that comes from a stranger are not those of ECMA-48,
  for which the table is, and more than one thing is found in them. The line
  says how many; --all reports each.
colors-pair: there are colors, and neither op nor oc
  There are colors, and neither op nor oc, as in djgpp204: the last color of a
  program stays when it has ended. Or there are colors, and none of setaf,
  setf and scp, as in qnxt2: a program counts on colors that it cannot select.
  Or there is ccc, and neither initc nor initp, as in vwmterm: a program
  expects to change colors, and nothing changes one.
layout: the bytes are not those that tic(1) writes
  The bytes are not those that tic(1) writes: each string once, in the order
  of its index, with no byte between. Programs read the entry; comparing files
  shows a difference that entries do not have. ti convert writes the layout.
base: readers differ in where user-defined names start
  Readers differ in where user-defined names start. Some take the sum of the
  sizes of the user-defined strings, some the end of the last one, and some
  the count of items in the header. These agree in each entry that tic(1)
  writes; here they do not, so some programs find other names, or none. ti
  convert writes the entry so that they agree.
keys-alike: only with --all: two keys send the same
  Only with --all: two keys send the same, as kind and kDN of xterm. A program
  cannot distinguish them.
mir-alone: only with --all: the cursor may move in insert mode (mir), and none of smir, ich and ich1 inserts
  Only with --all: the cursor may move in insert mode (mir), and none of smir,
  ich and ich1 inserts.
not-tried: the strings of the entry share bytes and have more than 32,768 together, so those at the end are not looked at
  The strings of the entry share bytes and have more than 32,768 together, so
  those at the end are not looked at. With --untrusted the line names them;
  and a string is not followed to its end that is too long or has more forms
  than are followed. With --all: a string of more than 1024 bytes, or that may
  send more than 256, is not tried over its values.
";
